//! Kinds of files.

/// Which file of a class is asked for.
#[derive(Clone, Copy, Debug, PartialEq, Eq)]
pub enum FileKind {
    /// That of its network.
    Network,
    /// That of its actor or unit.
    Actor,
    /// That of its network if the library has it, and else that of its actor.
    Either,
}
