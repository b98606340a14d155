//! Reading a text.

ghost use Rattle.std.specs.Prelude.{◌≡◌, ◌<◌, ◌≤◌, ◌^◌, length, IfOk, option_map};
ghost use Rattle.std.specs.Str.Lossy.{utf8_valid_len};
ghost use Rattle.fnl_markup.specs.Markup.{tags_of, broken_of, reading, is_whole, at_end};
ghost use Rattle.fnl_markup.specs.Stepped.{state_of, Ran, IsRefusal, IsFirstOf};
ghost use Rattle.fnl_markup.specs.State.{fresh};
ghost use Rattle.fnl_markup.specs.Tags.{plain_tags};

use crate::place::Place;
use crate::reader::Reader;
use crate::stop::Stop;
use crate::tag::Markup;
use rvc_base::{Memory, Place as SourcePlace, Refusal, Rule};
use std::alloc::Global;
use std::str;

/// The tags of a text, which is the file of this number, and the rule that it breaks first.
///
/// # Errors
///
/// `Memory` if memory runs out. A rule that the text breaks is no error: it is a part of the answer (`broken`).
pub fn read_markup(alloc: Global, file: u32, text: &[u8]) -> Result<Markup, Memory>
    requires { length text.now < 2 ^ 32 }
    ensures tags { IfOk result (λ found. plain_tags found.tags.items ≡ tags_of text.now) }
    ensures broken { IfOk result (λ found. IsRefusal file (broken_of text.now) found.broken) }
{
    let mut reader = Reader::new(alloc);
    let broken = match read_bytes(&mut reader, text) {
        Err(Stop::Memory) => return Err(Memory),
        Err(Stop::Broken(rule, at)) => Some(first_of(file, rule, at, valid_len(text))),
        Ok(()) => at_end(&reader, file, text.len(), valid_len(text)),
    };
    Ok(Markup {
        tags: reader.tags,
        broken,
    })
}

/// Takes all bytes of a text.
fn read_bytes(reader: &mut Reader, text: &[u8]) -> Result<(), Stop>
    requires size { length text.now < 2 ^ 32 }
    requires new { state_of reader.old ≡ fresh }
    ensures { Ran (reading text.now) reader.new result }
{
    for (at, b) in text.iter().enumerate() {
        reader.step(at as u32, *b)?;
    }
    Ok(())
}

/// The rule that was found broken at an offset, or that so many bytes alone are UTF-8.
fn first_of(file: u32, rule: Rule, at: u32, valid: usize) -> Refusal
    requires { valid < 2 ^ 32 }
    ensures { IsFirstOf file rule at valid result }
{
    if at as usize <= valid {
        return refusal(file, rule, at);
    }
    refusal(file, Rule::WRONG_ENCODING, valid as u32)
}

/// The rule that is broken at the end of so many bytes, of which so many are UTF-8.
fn at_end(reader: &Reader, file: u32, size: usize, valid: usize) -> Option<Refusal>
    requires size { size < 2 ^ 32 }
    requires valid { valid < 2 ^ 32 }
    ensures { IsRefusal file (at_end size valid (state_of reader.now)) result }
{
    if valid < size {
        return Some(refusal(file, Rule::WRONG_ENCODING, valid as u32));
    }
    if is_whole(reader) {
        return None;
    }
    Some(refusal(file, Rule::SPELLS_NO_NETWORK, size as u32))
}

/// How many bytes stand before the first that isn't UTF-8.
fn valid_len(text: &[u8]) -> usize
    ensures is { result ≡ utf8_valid_len text.now }
    ensures within { result ≤ length text.now }
{
    match str::from_utf8(text) {
        Ok(_) => text.len(),
        Err(wrong) => wrong.valid_up_to(),
    }
}

/// Whether the text may end here.
fn is_whole(reader: &Reader) -> bool
    ensures { result ≡ is_whole (state_of reader.now) }
{
    match reader.place {
        Place::Content => reader.begun && reader.opened.is_empty(),
        _ => false,
    }
}

/// A rule that is broken in a file, at an offset.
fn refusal(file: u32, rule: Rule, offset: u32) -> Refusal
    ensures { result ≡ record { rule = rule; place = record { file = file; offset = offset } } }
{
    Refusal {
        rule,
        place: SourcePlace { file, offset },
    }
}
