//! What the attributes of an element give.

ghost use Rattle.std.specs.Prelude.{◌≡◌, IfOk, MatchOption, false, true, length, map, option_map};
ghost use Rattle.std.specs.Str.{is_utf8};
ghost use Rattle.fnl_markup.specs.Tags.{plain_attribute};
ghost use Rattle.fnl_expr.specs.Given as meant;
ghost use Rattle.fnl_expr.specs.Answers.{text_of};

use crate::kind::{ExprKind, is, kind_named};
use cal_lexer::{MAX_NAME, is_name};
use fnl_markup::Attribute;
use std::alloc::{AllocError, Global};
use std::str;

/// A text, and the offset at which it begins.
#[derive(Drop)]
pub struct Name {
    pub text: String,
    pub at: u32,
}

/// What a text may be.
#[derive(Clone, Copy)]
pub enum Form {
    /// A name of the language.
    Name,
    /// Such a name, or nothing.
    NameOrEmpty,
    /// Such names, with a dot between each two.
    Tag,
    /// `size` or `type`.
    Entry,
    /// Any text.
    Any,
}

/// How many attributes have a name.
fn count_of(attributes: &[Attribute], key: &str) -> usize
    ensures { result ≡ length (meant.named key.now (map plain_attribute attributes.now)) }
{
    let mut count = 0;
    for attribute in attributes {
        if is(&attribute.name, key) {
            count += 1;
        }
    }
    count
}

/// The attribute of a name, if it is given once.
pub fn given<'a>(attributes: &'a [Attribute], key: &str) -> Option<&'a Attribute>
    ensures { option_map (λ a. plain_attribute a.now) result
        ≡ meant.given key.now (map plain_attribute attributes.now) }
{
    if count_of(attributes, key) != 1 {
        return None;
    }
    for attribute in attributes {
        if is(&attribute.name, key) {
            return Some(attribute);
        }
    }
    None
}

/// Which of two values an attribute has: the first, or the other.
pub fn either_given(attributes: &[Attribute], key: &str, first: &str, other: &str) -> Option<bool>
    ensures { result
        ≡ meant.either_given key.now first.now other.now (map plain_attribute attributes.now) }
{
    let attribute = given(attributes, key)?;
    if is(&attribute.value, first) {
        Some(true)
    } else if is(&attribute.value, other) {
        Some(false)
    } else {
        None
    }
}

/// The kind of an expression.
pub fn kind_given(attributes: &[Attribute]) -> Option<ExprKind>
    ensures { result ≡ meant.kind_given (map plain_attribute attributes.now) }
{
    kind_named(&given(attributes, "kind")?.value)
}

/// A text that an attribute gives, if it is of this form.
///
/// # Errors
///
/// An allocation was refused.
pub fn text_given(
    alloc: Global,
    attributes: &[Attribute],
    key: &str,
    form: Form,
) -> Result<Option<Name>, AllocError>
    ensures { IfOk result (λ found. option_map text_of found
        ≡ meant.text_given form key.now (map plain_attribute attributes.now)) }
{
    let Some(attribute) = given(attributes, key) else {
        return Ok(None);
    };
    let Some(text) = text_in(&attribute.value) else {
        return Ok(None);
    };
    if !is_of(form, text) {
        return Ok(None);
    }
    Ok(Some(Name {
        text: String::from_str(alloc, text)?,
        at: attribute.at,
    }))
}

/// The text that bytes are, if they are UTF-8.
fn text_in(bytes: &[u8]) -> Option<&str>
    ensures { MatchOption result (is_utf8 bytes.now ≡ false)
        (λ text. (is_utf8 bytes.now ≡ true) × (text.now ≡ bytes.now)) }
{
    match str::from_utf8(bytes) {
        Ok(text) => Some(text),
        Err(_) => None,
    }
}

/// Whether a text is of a form.
fn is_of(form: Form, text: &str) -> bool
    ensures { result ≡ meant.is_of form text.now }
{
    match form {
        Form::Name => is_name(text),
        Form::NameOrEmpty => text.is_empty() || is_name(text),
        Form::Tag => is_tag(text),
        Form::Entry => text == "size" || text == "type",
        Form::Any => true,
    }
}

/// Whether a text is names with a dot between each two.
#[tactic(auto, unfolding(crate::specs::Given::is_tag))]
fn is_tag(text: &str) -> bool
    ensures { result ≡ meant.is_tag text.now }
{
    text.split('.').all(|name| is_name(name))
}

/// Whether each of the names between dots is short enough.
#[tactic(auto, unfolding(crate::specs::Given::has_short_names))]
fn has_short_names(text: &str) -> bool
    ensures { result ≡ meant.has_short_names text.now }
{
    text.split('.').all(|name| name.len() <= MAX_NAME)
}

/// Where a name is too long, the offset at which the text begins.
pub fn long(name: &Name) -> Option<u32>
    ensures { result ≡ meant.long (text_of name.now) }
{
    if has_short_names(name.text.as_str()) {
        None
    } else {
        Some(name.at)
    }
}

/// The earlier of two places.
pub fn earlier(one: Option<u32>, other: Option<u32>) -> Option<u32>
    ensures { result ≡ meant.earlier one other }
{
    match (one, other) {
        (None, other) => other,
        (Some(at), None) => Some(at),
        (Some(at), Some(place)) => { if at <= place { Some(at) } else { Some(place) } }
    }
}
