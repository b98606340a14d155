//! Texts and lines on the channel of the report.

ghost use Rattle.std.specs.Prelude.{◌≡◌, ◌++◌, true, decimal, map};
ghost use Rattle.rvc_base.specs.Refusal.{rule_text};
ghost use Rattle.cmd_report.specs.Line.{behind_blanks, line};
ghost use Rattle.cmd_report.specs.WordText.{word_text};
ghost use Rattle.cmd_report.specs.Puts.{Puts};

use crate::words::Word;
use channel_writer::put_all;
use itoa::Buffer;
use rvc_base::Rule;
use rvc_io::{Drains, Failed};

/// The channel of the report.
pub const REPORT_CHANNEL: u32 = 0;

/// Puts a line: a word, and others with a blank before each.
#[tactic(auto, unfolding(crate::specs::Line::line))]
pub(crate) fn put_line<D: Drains>(
    first: &[u8],
    others: &[Word<'_>],
    drains: &mut D,
) -> Result<(), Failed>
    requires { (D.channels drains.old).is_open REPORT_CHANNEL ≡ true }
    ensures { Puts result (line first.now (map word_text others.now)) (D.channels drains.old)
        (D.channels drains.new) }
{
    put(first, drains)?;
    put_behind_blanks(others, drains)?;
    put(b"\n", drains)
}

/// Puts words with a blank before each.
fn put_behind_blanks<D: Drains>(words: &[Word<'_>], drains: &mut D) -> Result<(), Failed>
    requires { (D.channels drains.old).is_open REPORT_CHANNEL ≡ true }
    ensures { Puts result (behind_blanks (map word_text words.now)) (D.channels drains.old)
        (D.channels drains.new) }
{
    for word in words {
        put_behind(b" ", word, drains)?;
    }
    Ok(())
}

/// Puts a word behind a text.
fn put_behind<D: Drains>(before: &[u8], word: &Word<'_>, drains: &mut D) -> Result<(), Failed>
    requires { (D.channels drains.old).is_open REPORT_CHANNEL ≡ true }
    ensures { Puts result (before.now ++ word_text word.now) (D.channels drains.old)
        (D.channels drains.new) }
{
    put(before, drains)?;
    put_word(word, drains)
}

/// Puts a word.
fn put_word<D: Drains>(word: &Word<'_>, drains: &mut D) -> Result<(), Failed>
    requires { (D.channels drains.old).is_open REPORT_CHANNEL ≡ true }
    ensures { Puts result (word_text word.now) (D.channels drains.old) (D.channels drains.new) }
{
    match word {
        Word::Text(text) => put(text, drains),
        Word::Number(number) => put_number(*number, drains),
        Word::OfRule(rule) => put_rule(*rule, drains),
    }
}

/// Puts the name of a rule.
fn put_rule<D: Drains>(rule: Rule, drains: &mut D) -> Result<(), Failed>
    requires { (D.channels drains.old).is_open REPORT_CHANNEL ≡ true }
    ensures { Puts result (rule_text rule) (D.channels drains.old) (D.channels drains.new) }
{
    put(rule.letter().as_bytes(), drains)?;
    put_number(u64::from(rule.number()), drains)
}

/// Puts a number.
fn put_number<D: Drains>(number: u64, drains: &mut D) -> Result<(), Failed>
    requires { (D.channels drains.old).is_open REPORT_CHANNEL ≡ true }
    ensures { Puts result (decimal number) (D.channels drains.old) (D.channels drains.new) }
{
    let mut buffer = Buffer::new();
    put(buffer.format(number).as_bytes(), drains)
}

/// Puts a text behind the report so far.
fn put<D: Drains>(text: &[u8], drains: &mut D) -> Result<(), Failed>
    requires { (D.channels drains.old).is_open REPORT_CHANNEL ≡ true }
    ensures { Puts result text.now (D.channels drains.old) (D.channels drains.new) }
{
    put_all(drains, REPORT_CHANNEL, text)
}
