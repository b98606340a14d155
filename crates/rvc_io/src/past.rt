//! What was done through an object of the outside, for clauses alone.

ghost use Rattle.std.specs.Prelude.{◌≡◌, List, []};
ghost use Rattle.std.specs.Borrow.{ftrue};
ghost use Rattle.rvc_io.specs.Past.{Done, coded_done};

use std::marker::Model;

/// What was done through an object so far, the last first. It takes no bytes, and its calls do nothing when they run.
///
/// Nothing ties it to what the system did: an object that notes something else would meet its clauses too. It binds
/// code over any object, which can't note anything but by a call of the trait.
#[derive(Drop)]
pub struct Past {
    pub ghost acts: { List Done } by { coded_done },
}

impl Model for Past {
    ghost also_owns = { λ _. ftrue };
}

/// What a call did.
#[derive(Clone, Copy, Drop)]
pub enum Act<'a> {
    /// It opened the feed or the channel of this number under this name.
    Opened(u32, &'a str),
    /// The feed of this number gave these bytes, or its channel took them.
    Passed(u32, &'a [u8]),
    /// The file of this name was read, and has these bytes.
    Gave(&'a str, &'a [u8]),
    /// There was no file of this name.
    Lacked(&'a str),
    /// The file of this name passed its limit.
    Exceeded(&'a str),
}

impl Past {
    ghost use Rattle.rvc_io.specs.Acts.{noted};

    /// Nothing was done yet.
    pub fn new() -> Past
        ensures { result.acts ≡ [] }
    {
        Past {}
    }

    /// Notes one act more.
    pub fn note(&mut self, act: &Act<'_>)
        ensures { self.new.acts ≡ noted self.old.acts act.now }
    {
        *self = self.then(act);
    }

    /// What was done, with one act more.
    fn then(&self, _act: &Act<'_>) -> Past
        ensures { result.acts ≡ noted self.now.acts _act.now }
    {
        Past {}
    }
}
