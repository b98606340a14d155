//! Links by their rates.

/// A link between two leaves, by its rates.
#[derive(Clone, Copy)]
pub struct RatedLink {
    /// The leaf that writes.
    pub writer: u32,
    /// The leaf that reads.
    pub reader: u32,
    /// How many tokens one firing of the writer gives.
    pub give: u32,
    /// How many tokens one firing of the reader needs.
    pub need: u32,
}
