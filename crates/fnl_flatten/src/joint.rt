//! Where connections meet.

/// A port of a leaf, or a network's own port. A network's port is one joint for the connections inside it and for those
/// outside.
#[derive(Clone, Copy, Debug, PartialEq, Eq, Hash)]
pub enum Joint {
    /// An input or an output of an actor, by its number.
    Leaf { leaf: u32, input: bool, port: u32 },
    /// An input or an output of a network itself, by its number.
    Own { net: u32, input: bool, port: u32 },
}
