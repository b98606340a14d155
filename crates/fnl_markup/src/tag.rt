//! Tags.

use rvc_base::Refusal;

/// A tag where it stands. An element that is closed by `/>` has both of its tags there.
#[derive(Debug, Drop)]
pub enum Tag {
    /// An element begins.
    Opens {
        /// The element's name.
        name: Vec<u8>,
        /// Its attributes, in the order of the text.
        attributes: Vec<Attribute>,
        /// The offset of its `<`.
        at: u32,
    },
    /// The innermost element that is open ends.
    Closes {
        /// The offset of the tag's `/`.
        at: u32,
    },
}

/// An attribute of a tag.
#[derive(Debug, Drop)]
pub struct Attribute {
    pub name: Vec<u8>,
    /// What stands between its quotes, in UTF-8, with the characters that entities stand for.
    pub value: Vec<u8>,
    /// The offset of the first byte behind the quote that opens the value.
    pub at: u32,
}

/// What a text begins with.
#[derive(Debug, Drop)]
pub struct Markup {
    /// The tags that stand before the first broken rule, or all tags.
    pub tags: Vec<Tag>,
    /// The rule that the text breaks first, and its place. If there is none, the tags are one element.
    pub broken: Option<Refusal>,
}
