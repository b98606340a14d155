//! The last firing whose line was read.

ghost use Rattle.std.specs.Prelude.{◌≡◌, ◌≤◌, length};
ghost use Rattle.trace_text.specs.Spelling.{Spells};
ghost use Rattle.trace_text.specs.declared.line.Line.TheVariants.{Fire};

use arrayvec::ArrayVec;
use std::marker::Model;
use trace_text::{Line, write_line};

/// The last firing whose line was read, and the text of that line: the same text again needs no reading.
///
/// Contracts see its numbers and the text.
#[derive(Drop)]
pub(crate) struct LastFiring {
    inst: u32,
    action: u16,
    text: ArrayVec<u8, 64>,
}

impl Model for LastFiring {
    ghost use Rattle.trace_text.specs.Spelling.{Spells};
    ghost use Rattle.trace_text.specs.declared.line.Line.TheVariants.{Fire};
    ghost use Rattle.trace_replay.specs.Spelled.{Spelled};

    ghost Value = { Spelled };

    ghost view = { λ f. record { inst = f.inst; action = f.action; text = f.text.items } };

    ghost invariant = { λ f. Spells (Fire f.inst f.action) f.text.items };
}

impl LastFiring {
    pub(crate) fn new(inst: u32, action: u16) -> LastFiring
        ensures inst { result.inst ≡ inst }
        ensures action { result.action ≡ action }
    {
        let mut text = ArrayVec::<u8, 64>::new();
        write_line(&Line::Fire { inst, action }, &mut text);
        LastFiring { inst, action, text }
    }

    pub(crate) fn line(&self) -> Line
        ensures { result ≡ Fire self.now.inst self.now.action }
    {
        Line::Fire {
            inst: self.inst,
            action: self.action,
        }
    }

    pub(crate) fn text(&self) -> &[u8]
        ensures text { result.now ≡ self.now.text }
        ensures spelled { Spells (Fire self.now.inst self.now.action) result.now }
        ensures within { length result.now ≤ 64 }
    {
        self.text.as_slice()
    }
}
