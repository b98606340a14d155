//! Where a reader of markup is.

use crate::entity::Entity;

/// What was read last, and so what may follow.
#[derive(Clone, Copy)]
pub(crate) enum Place {
    /// Nothing.
    Start,
    /// One byte of the byte order mark.
    MarkOne,
    /// Two bytes of the byte order mark.
    MarkTwo,
    /// The byte order mark.
    Marked,
    /// A `<` before all else.
    FirstLess,
    /// Its `?`, and then `x` and `m` of the declaration's name.
    Question,
    QuestionX,
    QuestionXm,
    /// What stands between tags.
    Content,
    /// The `<` of a tag or a comment.
    Less,
    /// `<!`
    Bang,
    /// `<!-`
    BangDash,
    /// A part of a comment that doesn't end in `-`.
    Comment,
    /// A part of a comment that ends in one `-`.
    CommentDash,
    /// A part of a comment that ends in `--`.
    CommentDashes,
    /// A part of an element's name.
    Name,
    /// A blank between attributes.
    Gap,
    /// A part of an attribute's name.
    Word,
    /// A blank behind an attribute's name.
    WordGap,
    /// The `=` behind an attribute's name, and blanks.
    Equal,
    /// A part of a value in these quotes.
    Value { quote: u8 },
    /// A part of an entity, in a value in these quotes.
    InEntity { quote: u8, read: Entity },
    /// The quote that closes a value, or the declaration's name.
    Quoted,
    /// The `?` at the declaration's end.
    LastQuestion,
    /// The `/` of an element that is closed by `/>`.
    Slash,
    /// The `</` of a tag, and so many bytes of the element's name.
    EndName { size: usize },
    /// A blank behind the name in an end tag.
    EndGap,
}
