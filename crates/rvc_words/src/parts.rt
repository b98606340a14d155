//! What stands at the places of the command and behind its options.

ghost use Rattle.std.specs.Prelude.{◌≡◌};
ghost use Rattle.clap.specs.Walk.{first_of, rows_of};
ghost use Rattle.clap.specs.Matches.{found_of};
ghost use Rattle.rvc_words.specs.Command.{parts_of, text_at, texts_at};
ghost use Rattle.rvc_words.specs.Given.{parts_text, word_of, words_of};

use clap::ArgMatches;

/// The parts of a command, as they stand.
#[derive(Clone, Copy)]
pub struct Parts<'a, 'm> {
    pub verb: &'a str,
    pub top: &'a str,
    /// None if there is no port word.
    pub ports: Option<&'m [&'a str]>,
    pub trace: &'a str,
    pub workers: Option<&'a str>,
    pub round: Option<&'a str>,
    pub burst: Option<&'a str>,
    pub budget: Option<&'a str>,
    pub grow: Option<&'a str>,
}

/// The word behind an option.
fn option_at<'a>(matches: &ArgMatches<'a>, id: &str) -> Option<&'a str>
    ensures { word_of result ≡ first_of id.now (rows_of (found_of matches.now)) }
{
    matches.get_str(id)
}

/// The word at a place, or nothing.
fn text_at<'a>(matches: &ArgMatches<'a>, id: &str) -> &'a str
    ensures { result.now ≡ text_at id.now (rows_of (found_of matches.now)) }
{
    match option_at(matches, id) {
        Some(word) => word,
        None => "",
    }
}

/// The words at a place.
fn texts_at<'a, 'm>(matches: &'m ArgMatches<'a>, id: &str) -> Option<&'m [&'a str]>
    ensures { words_of result ≡ texts_at id.now (rows_of (found_of matches.now)) }
{
    matches.get_strs(id)
}

/// The parts of a command by its matches.
#[tactic(auto, unfolding(crate::specs::Command::parts_of))]
pub fn parts_of<'a, 'm>(matches: &'m ArgMatches<'a>) -> Parts<'a, 'm>
    ensures { parts_text result ≡ parts_of (rows_of (found_of matches.now)) }
{
    Parts {
        verb: text_at(matches, "VERB"),
        top: text_at(matches, "TOP"),
        ports: texts_at(matches, "PORTS"),
        trace: text_at(matches, "trace"),
        workers: option_at(matches, "workers"),
        round: option_at(matches, "round"),
        burst: option_at(matches, "burst"),
        budget: option_at(matches, "budget"),
        grow: option_at(matches, "grow"),
    }
}
