//! Which instructions may stand in a body.

ghost use Rattle.std.specs.Prelude.{◌≡◌, ℕ, ◌+◌, ◌*◌, ◌<◌, ◌≤◌, ◌^◌, true, IsTrue};
ghost use Rattle.lowered_actor.specs.Actor.{actor_of, number_on};
ghost use Rattle.lowered_actor.specs.Straight.{is_saved, may_store};
ghost use Rattle.lower_scratch.specs.Fitting.{MayStand, MayStoreEach};

use crate::body::Last;
use code_ir::Instr;
use lowered_actor::{Parts, StateCell};

/// Whether an instruction may stand in a body of a firing or of a guard: it writes only where that is allowed, reads no
/// token behind those that are taken, and ends the body as it must.
pub(crate) fn may_stand(
    parts: &Parts,
    firing: bool,
    needs: &[u32],
    last: Last,
    instr: &Instr,
) -> bool
    ensures { IsTrue result
        → MayStand (actor_of parts.now) firing needs.now last instr.now }
{
    match *instr {
        Instr::Const(_) => true,
        Instr::Load(_) => true,
        Instr::Store(cell, _) => may_store(parts, firing, cell as usize),
        Instr::Index(_, _) => true,
        Instr::LoadAt(_, _) => true,
        Instr::StoreAt(cell, count, _) => may_store_each(parts, firing, cell, count),
        Instr::Copy(to, _, count, _) => may_store_each(parts, firing, to, count),
        Instr::CopyTo(to, count, _, _, _) => may_store_each(parts, firing, to, count),
        Instr::CopyFrom(to, _, _, count) => may_store_each(parts, firing, to, count),
        Instr::Token(port, k) => k < needed(needs, port),
        Instr::TokenAt(port, k, step, count) => are_needed(k, step, count, needed(needs, port)),
        Instr::TokenList(to, port, k, step, count) => {
            may_store_each(parts, firing, to, count)
                && are_needed(k, step, count, needed(needs, port))
        }
        Instr::Zero(cell, count) => may_store_each(parts, firing, cell, count),
        Instr::Neg => true,
        Instr::BitNot => true,
        Instr::Not => true,
        Instr::Add => true,
        Instr::Sub => true,
        Instr::Mul => true,
        Instr::Div => true,
        Instr::Mod => true,
        Instr::Shl => true,
        Instr::Shr => true,
        Instr::And => true,
        Instr::Or => true,
        Instr::Xor => true,
        Instr::Eq => true,
        Instr::Ne => true,
        Instr::Lt => true,
        Instr::Le => true,
        Instr::Gt => true,
        Instr::Ge => true,
        Instr::Jump(_) => true,
        Instr::JumpIfNot(_) => true,
        Instr::Turn => true,
        Instr::Call(_) => true,
        Instr::Drop => true,
        Instr::Return => matches!(last, Last::Return),
        Instr::Answer => matches!(last, Last::Answer),
        Instr::Done => matches!(last, Last::Done),
    }
}

/// How many tokens are taken from a port: none beyond these.
fn needed(needs: &[u32], port: u32) -> u32
    ensures { result ≡ number_on needs.now port }
{
    let port = port as usize;
    if port < needs.len() { needs[port] } else { 0 }
}

/// Whether so many tokens, each so many places behind the one before, are among those that are needed.
fn are_needed(first: u32, step: u32, count: u32, needed: u32) -> bool
    ensures { IsTrue result → (j : ℕ) → j < count → first + j * step < needed }
{
    let mut at = first as u64;
    'tokens: for j in 0..count {
        if at >= needed as u64 {
            return false;
        }
        at += step as u64;
    }
    true
}

/// Whether a cell may be written by a firing, or by a guard.
fn may_store(parts: &Parts, firing: bool, cell: usize) -> bool
    ensures { result ≡ may_store (actor_of parts.now) firing cell }
{
    parts.kept as usize <= cell || (firing && is_saved(&parts.saved, cell))
}

/// Whether each of so many cells may be written. Most stand behind the state cells, or among saved ones in a row.
fn may_store_each(parts: &Parts, firing: bool, cell: u32, count: u32) -> bool
    ensures { IsTrue result → MayStoreEach (actor_of parts.now) firing cell count }
{
    if parts.kept <= cell {
        return true;
    }
    if firing && are_saved(&parts.saved, cell as usize, count as usize) {
        return true;
    }
    each_may_store(parts, firing, cell, count)
}

/// Whether each of so many cells may be written, one after the other.
fn each_may_store(parts: &Parts, firing: bool, cell: u32, count: u32) -> bool
    ensures { IsTrue result → MayStoreEach (actor_of parts.now) firing cell count }
{
    for k in 0..count as usize {
        if !may_store(parts, firing, cell as usize + k) {
            return false;
        }
    }
    true
}

/// Whether so many cells are seen to be among these, in a row.
fn are_saved(saved: &[StateCell], cell: usize, count: usize) -> bool
    requires { cell + count < 2 ^ 33 }
    ensures { IsTrue result → (d : ℕ) → cell ≤ d → d < cell + count → is_saved saved.now d ≡ true }
{
    let first = place_of(saved, cell);
    for k in 0..count {
        if !is_saved_at(saved, first.saturating_add(k), cell + k) {
            return false;
        }
    }
    true
}

/// Whether a cell is one of these. It is looked for in halves first, since their numbers rise.
fn is_saved(saved: &[StateCell], cell: usize) -> bool
    ensures { result ≡ is_saved saved.now cell }
{
    if is_saved_at(saved, place_of(saved, cell), cell) {
        return true;
    }
    is_found(saved, cell)
}

/// Whether a cell is found among these, one after the other.
fn is_found(saved: &[StateCell], cell: usize) -> bool
    ensures { result ≡ is_saved saved.now cell }
{
    for one in saved {
        if one.cell as usize == cell {
            return true;
        }
    }
    false
}

/// Whether a cell is the one at a place.
fn is_saved_at(saved: &[StateCell], place: usize, cell: usize) -> bool
    ensures { IsTrue result → is_saved saved.now cell ≡ true }
{
    match saved.get(place) {
        Some(one) => one.cell as usize == cell,
        None => false,
    }
}

/// Where a cell stands among these if their numbers rise and it is one of them.
fn place_of(saved: &[StateCell], cell: usize) -> usize {
    let mut low = 0;
    let mut high = saved.len();
    'halves: while low < high {
        let middle = low + (high - low) / 2;
        if (saved[middle].cell as usize) < cell {
            low = middle + 1;
        } else {
            high = middle;
        }
    }
    low
}
