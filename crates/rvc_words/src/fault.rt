//! Why words ask for nothing.

ghost use Rattle.std.specs.Prelude.{◌≡◌};
ghost use Rattle.rvc_words.specs.Causes.{cause_name};

use std::alloc::AllocError;

/// What is wrong with the words: the first of these, in this order.
#[derive(Clone, Copy, Debug, PartialEq, Eq)]
pub enum UsageCause {
    /// The words don't fit the command.
    Words,
    /// There is no such verb.
    Verb,
    /// The top is neither a file of the verb nor, for `gen`, a number from 1 to 1,000.
    Top,
    /// The value of `--workers`, `--burst`, `--budget` or `--grow` is no number, or is out of its bounds.
    Number,
    /// The value of `--round` is no policy.
    Round,
    /// A port word isn't `NAME=FILE`.
    Port,
    /// The verb needs a trace, and none is named.
    Trace,
}

impl UsageCause {
    /// The name that the program prints.
    pub fn name(self) -> &'static str
        ensures { result.now ≡ cause_name self }
    {
        match self {
            UsageCause::Words => "words",
            UsageCause::Verb => "verb",
            UsageCause::Top => "top",
            UsageCause::Number => "number",
            UsageCause::Round => "round",
            UsageCause::Port => "port",
            UsageCause::Trace => "trace",
        }
    }
}

/// Why [`read_words`](crate::read_words) gives no job.
#[derive(Clone, Copy, Debug, PartialEq, Eq)]
pub enum WordFault {
    /// The words ask for nothing that can be done.
    Usage(UsageCause),
    /// An allocation was refused.
    Memory,
}

impl From<AllocError> for WordFault {
    ghost use Rattle.std.specs.Prelude.{◌≡◌};
    ghost use Rattle.rvc_words.specs.declared.fault.WordFault.TheVariants.{Memory};

    ghost from_gives = { λ _ fault. fault ≡ Memory };

    fn from(_refused: AllocError) -> WordFault {
        WordFault::Memory
    }
}

impl From<UsageCause> for WordFault {
    ghost use Rattle.std.specs.Prelude.{◌≡◌};
    ghost use Rattle.rvc_words.specs.declared.fault.WordFault.TheVariants.{Usage};

    ghost from_gives = { λ cause fault. fault ≡ Usage cause };

    fn from(cause: UsageCause) -> WordFault {
        WordFault::Usage(cause)
    }
}
