//! What lies in a slot of the table.

/// The piece of a place, nothing while the piece is out, or, in the slot after the last place, the room into
/// which the pieces go when the board is closed.
#[derive(Drop)]
pub enum Slot<P> {
    Empty,
    Holds(P),
    Room(Vec<P>),
}
