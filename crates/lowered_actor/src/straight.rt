//! A test that suffices for the facts of guards and firings: their bodies are straight lines of code.
//!
//! It is meant for actors that are written in code by hand, as tests do. A straight line has no jump, loop or call,
//! and no lists: whether it keeps the facts can be seen from each instruction alone.

ghost use Rattle.std.specs.Prelude.{◌≡◌, ◌<◌, ◌+◌, true, IsTrue};
ghost use Rattle.lowered_actor.specs.Actor.{action_of, actor_of, number_on};
ghost use Rattle.lowered_actor.specs.Facts.{Fits, FitTogether, RunRight};
ghost use Rattle.lowered_actor.specs.Straight.{are_straight, are_straight_guards, body_at, ends_line, is_line, is_saved, is_straight, may_stand, may_store, stores, stores_each, stores_sent};

use crate::parts::{ActionCode, Parts, StateCell};
use code_ir::{Instr, laws};

impl Parts {
    /// Whether each guard and each firing is a straight line that keeps the facts: it reads no cell but state cells,
    /// writes behind these or, in a firing, in saved ones, reads no token behind those that the action takes, ends as
    /// it must, and a firing writes in each cell of the tokens to send. Other code may keep the facts too.
    pub fn are_straight(&self) -> bool
        requires fits { FitTogether (actor_of self.now) }
        ensures straight { IsTrue result → are_straight (actor_of self.now) ≡ true }
        ensures right { IsTrue result → RunRight (actor_of self.now) }
    {
        // it tells that the code is admitted
        let _most = self.code.most_operands();
        laws::never_stuck();
        laws::has_one_end();
        are_all_straight(self)
    }
}

/// Whether each action is of straight lines.
fn are_all_straight(parts: &Parts) -> bool
    requires { FitTogether (actor_of parts.now) }
    ensures { IsTrue result → are_straight (actor_of parts.now) ≡ true }
{
    for action in &parts.actions {
        if !is_straight(parts, action) {
            return false;
        }
    }
    true
}

/// Whether the guards and the firing of an action are straight lines.
fn is_straight(parts: &Parts, action: &ActionCode) -> bool
    requires { Fits (actor_of parts.now) (action_of action.now) }
    ensures { IsTrue result → is_straight (actor_of parts.now) (action_of action.now) ≡ true }
{
    are_straight_guards(parts, action)
        && is_line(parts, action, true, action.fire)
        && stores_sent(parts, action)
}

/// Whether each guard of an action is a straight line.
fn are_straight_guards(parts: &Parts, action: &ActionCode) -> bool
    ensures { IsTrue result → are_straight_guards (actor_of parts.now) (action_of action.now)
        ≡ true }
{
    for &entry in &action.guards {
        if !is_line(parts, action, false, entry) {
            return false;
        }
    }
    true
}

/// Whether the body that begins at an entry is a straight line of a firing or of a guard.
fn is_line(parts: &Parts, action: &ActionCode, firing: bool, entry: u32) -> bool
    ensures { IsTrue result → is_line (actor_of parts.now) (action_of action.now) firing
        (body_at (actor_of parts.now) entry) ≡ true }
{
    let instrs = parts.code.instrs();
    for place in entry as usize..instrs.len() {
        if ends_line(firing, &instrs[place]) {
            return true;
        }
        if !may_stand(parts, action, firing, &instrs[place]) {
            return false;
        }
    }
    false
}

/// Whether an instruction ends a firing, or a guard.
fn ends_line(firing: bool, instr: &Instr) -> bool
    ensures { result ≡ ends_line firing instr.now }
{
    match *instr {
        Instr::Answer => !firing,
        Instr::Done => firing,
        _ => false,
    }
}

/// Whether an instruction may stand in a straight line.
fn may_stand(parts: &Parts, action: &ActionCode, firing: bool, instr: &Instr) -> bool
    ensures { result ≡ may_stand (actor_of parts.now) (action_of action.now) firing instr.now }
{
    match *instr {
        Instr::Const(_) => true,
        Instr::Load(cell) => cell < parts.kept,
        Instr::Store(cell, _) => may_store(parts, firing, cell),
        Instr::Token(port, k) => k < needed(action, port),
        Instr::Not => true,
        Instr::Add => true,
        Instr::Sub => true,
        Instr::Mul => true,
        Instr::Div => true,
        Instr::Mod => true,
        Instr::Eq => true,
        Instr::Lt => true,
        _ => false,
    }
}

/// How many tokens an action takes from a port: none beyond its ports.
fn needed(action: &ActionCode, port: u32) -> u32
    ensures { result ≡ number_on (action_of action.now).needs port }
{
    let port = port as usize;
    if port < action.needs.len() {
        action.needs[port]
    } else {
        0
    }
}

/// Whether a cell may be written by a firing, or by a guard.
fn may_store(parts: &Parts, firing: bool, cell: u32) -> bool
    ensures { result ≡ may_store (actor_of parts.now) firing cell }
{
    parts.kept <= cell || (firing && is_saved(&parts.saved, cell))
}

/// Whether a cell is one of these.
pub(crate) fn is_saved(saved: &[StateCell], cell: u32) -> bool
    ensures { result ≡ is_saved saved.now cell }
{
    for one in saved {
        if one.cell == cell {
            return true;
        }
    }
    false
}

/// Whether a firing writes in each cell of the tokens to send.
fn stores_sent(parts: &Parts, action: &ActionCode) -> bool
    requires { Fits (actor_of parts.now) (action_of action.now) }
    ensures { IsTrue result → stores_sent (action_of action.now) parts.now.outs
        (body_at (actor_of parts.now) action.now.fire) ≡ true }
{
    for p in 0..parts.outs as usize {
        if !stores_each(parts, action.fire, action.sends[p], action.gives[p]) {
            return false;
        }
    }
    true
}

/// Whether the line that begins at an entry writes in each of `n` cells.
fn stores_each(parts: &Parts, entry: u32, cell: u32, n: u32) -> bool
    ensures { IsTrue result → stores_each cell n (body_at (actor_of parts.now) entry) ≡ true }
{
    for k in 0..u64::from(n) {
        if !stores(parts, entry, u64::from(cell) + k) {
            return false;
        }
    }
    true
}

/// Whether the line that begins at an entry writes in a cell.
fn stores(parts: &Parts, entry: u32, cell: u64) -> bool
    ensures { IsTrue result → stores cell (body_at (actor_of parts.now) entry) ≡ true }
{
    let instrs = parts.code.instrs();
    for place in entry as usize..instrs.len() {
        match instrs[place] {
            Instr::Answer | Instr::Done => return false,
            Instr::Store(c, _) if u64::from(c) == cell => return true,
            _ => {}
        }
    }
    false
}
