//! Refusals: which rule a source or the words break, and where.

ghost use Rattle.std.specs.Prelude.{◌≡◌, ◌/◌, ◌%◌};
ghost use Rattle.rvc_base.specs.Refusal.{letter_of_group};

use std::fmt;
use thiserror::Error;

/// The number of a rule: its group's hundred plus its own number.
///
/// It prints as the letter of its group and its own number, as `L1` or `Z11`. Each rule has its name as a
/// constant of this type.
#[derive(Clone, Copy, Debug, PartialEq, Eq)]
pub struct Rule(pub u16);

impl Rule {
    /// The letter of the rule's group.
    pub fn letter(self) -> &'static str
        ensures { result.now ≡ letter_of_group (self.0 / 100) }
    {
        group_letter(self.0)
    }

    /// The rule's number in its group.
    pub fn number(self) -> u16
        ensures { result ≡ self.0 % 100 }
    {
        self.0 % 100
    }
}

impl fmt::Display for Rule {
    ghost use Rattle.std.specs.Prelude.{Some};
    ghost use Rattle.rvc_base.specs.Refusal.{rule_text};

    ghost output = { λ rule. Some (rule_text rule) };

    fn fmt<W: fmt::Write>(&self, f: &mut fmt::Formatter<W>) -> fmt::Result {
        let letter = group_letter(self.0);
        let number = self.0 % 100;
        write!(f, "{letter}{number}")
    }
}

/// The letter of the group of a rule's number.
fn group_letter(rule: u16) -> &'static str
    ensures { result.now ≡ letter_of_group (rule / 100) }
{
    match rule / 100 {
        1 => "L",
        2 => "G",
        3 => "S",
        4 => "T",
        5 => "A",
        6 => "Z",
        7 => "F",
        8 => "N",
        _ => "P",
    }
}

/// A place in a file. File 0 is the command line; the others are numbered from 1 as they are found.
#[derive(Clone, Copy, Debug, PartialEq, Eq)]
pub struct Place {
    pub file: u32,
    /// The offset of a byte in the file; in the command line the number of a word, as the rule says.
    pub offset: u32,
}

/// A rule that is broken, and the place where it is.
#[derive(Clone, Copy, Debug, PartialEq, Eq)]
pub struct Refusal {
    pub rule: Rule,
    pub place: Place,
}

/// Why a call that reads a source gives no result.
#[derive(Clone, Copy, Debug, PartialEq, Eq, Error)]
pub enum Front {
    #[error("a rule is broken")]
    Refused(Refusal),
    #[error("out of memory")]
    Memory,
}
