//! The lines that an instruction meets or breaks by itself.

ghost use Rattle.std.specs.Prelude.{◌≡◌, ◌+◌, ◌≤◌, ◌<◌, ℕ, length, slice_get, Some, MatchOption};
ghost use Rattle.std.specs.Bool.{MatchBool};
ghost use Rattle.code_ir.specs.Code.{begins, body_of, code_of, results_of, routine_of};
ghost use Rattle.code_ir.specs.Typing.{AllFitAlone, CallsSmaller, FitsAlone, IsUnfit, IsTarget, JumpsInside, NamesCells, StandsInBody, StaysInside, goes_on, pops, pushes, target};
ghost use Rattle.code_ir.specs.Tables.{IsTableOf};
ghost use Rattle.code_ir.specs.declared.instr.Instr.{Instr as TheInstr};

use crate::instr::{ActorCode, Instr, Routine};
use crate::places::{is_among, routine_at};

/// Whether the next place may come after the instruction.
#[inline]
pub(crate) fn goes_on(instr: &Instr) -> bool
    ensures { result ≡ goes_on instr.now }
{
    !matches!(
        instr,
        Instr::Jump(_) | Instr::Return | Instr::Answer | Instr::Done
    )
}

/// Where the instruction may jump to.
pub(crate) fn target(instr: &Instr) -> Option<u32>
    ensures { result ≡ target instr.now }
{
    match *instr {
        Instr::Jump(t) | Instr::JumpIfNot(t) => Some(t),
        _ => None,
    }
}

/// How many numbers the instruction pops.
pub(crate) fn pops(instr: &Instr) -> u32
    ensures { result ≡ pops instr.now }
{
    match instr {
        Instr::Index(..)
        | Instr::StoreAt(..)
        | Instr::Add
        | Instr::Sub
        | Instr::Mul
        | Instr::Div
        | Instr::Mod
        | Instr::Shl
        | Instr::Shr
        | Instr::And
        | Instr::Or
        | Instr::Xor
        | Instr::Eq
        | Instr::Ne
        | Instr::Lt
        | Instr::Le
        | Instr::Gt
        | Instr::Ge => 2,
        Instr::Store(..)
        | Instr::LoadAt(..)
        | Instr::CopyTo(..)
        | Instr::CopyFrom(..)
        | Instr::TokenAt(..)
        | Instr::Neg
        | Instr::BitNot
        | Instr::Not
        | Instr::JumpIfNot(_)
        | Instr::Drop
        | Instr::Answer => 1,
        _ => 0,
    }
}

/// How many numbers a routine leaves on the stack; none if there is no such routine.
pub(crate) fn results_of(code: &ActorCode, r: usize) -> u32
    ensures value { result ≡ results_of (code_of code.now) r }
    ensures small { result < 256 }
{
    if r >= code.routines.len() {
        return 0;
    }
    let Routine { start: _, results } = code.routines[r];
    u32::from(results)
}

/// How many numbers the instruction pushes after it popped.
pub(crate) fn pushes(code: &ActorCode, instr: &Instr) -> u32
    ensures value { result ≡ pushes (code_of code.now) instr.now }
    ensures small { result < 256 }
{
    match *instr {
        Instr::Call(r) => results_of(code, r as usize),
        Instr::Const(_)
        | Instr::Load(_)
        | Instr::Index(..)
        | Instr::LoadAt(..)
        | Instr::Token(..)
        | Instr::TokenAt(..)
        | Instr::Neg
        | Instr::BitNot
        | Instr::Not
        | Instr::Add
        | Instr::Sub
        | Instr::Mul
        | Instr::Div
        | Instr::Mod
        | Instr::Shl
        | Instr::Shr
        | Instr::And
        | Instr::Or
        | Instr::Xor
        | Instr::Eq
        | Instr::Ne
        | Instr::Lt
        | Instr::Le
        | Instr::Gt
        | Instr::Ge => 1,
        _ => 0,
    }
}

/// Whether `Return`, `Answer` and `Done` stand where they may: in a body of routine number `routine`, which is
/// `routines` for the body of an entry.
fn stands_in_body(instr: &Instr, routine: usize, routines: usize) -> bool
    ensures { MatchBool result (StandsInBody routines routine instr.now)
        (¬ StandsInBody routines routine instr.now) }
{
    match instr {
        Instr::Return => routine < routines,
        Instr::Answer | Instr::Done => routines <= routine,
        _ => true,
    }
}

/// Whether a call in a body of this number names a routine that it may.
fn calls_smaller(instr: &Instr, routine: usize) -> bool
    ensures { MatchBool result (CallsSmaller routine instr.now) (¬ CallsSmaller routine instr.now) }
{
    match *instr {
        Instr::Call(r) => (r as usize) < routine,
        _ => true,
    }
}

/// Whether `count` cells from `first` on are below `cells`.
fn are_cells(first: u32, count: u32, cells: u32) -> bool
    ensures { MatchBool result (first + count ≤ cells) (¬ (first + count ≤ cells)) }
{
    u64::from(first) + u64::from(count) <= u64::from(cells)
}

/// Whether both ranges are below `cells`.
fn are_both_cells(first: u32, count: u32, other: u32, others: u32, cells: u32) -> bool
    ensures { MatchBool result ((first + count ≤ cells) × (other + others ≤ cells))
        (¬ ((first + count ≤ cells) × (other + others ≤ cells))) }
{
    are_cells(first, count, cells) && are_cells(other, others, cells)
}

/// Whether each range of cells that the instruction names is below `cells`.
fn names_cells(instr: &Instr, cells: u32) -> bool
    ensures { MatchBool result (NamesCells cells instr.now) (¬ NamesCells cells instr.now) }
{
    match *instr {
        Instr::Load(c) => are_cells(c, 1, cells),
        Instr::Store(c, _) => are_cells(c, 1, cells),
        Instr::LoadAt(c, n) => are_cells(c, n, cells),
        Instr::StoreAt(c, n, _) => are_cells(c, n, cells),
        Instr::Copy(d, s, n, _) => are_both_cells(d, n, s, n, cells),
        Instr::CopyTo(d, n, s, m, _) => are_both_cells(d, n, s, m, cells),
        Instr::CopyFrom(d, s, n, m) => are_both_cells(d, m, s, n, cells),
        Instr::TokenList(d, _, _, _, n) => are_cells(d, n, cells),
        Instr::Zero(c, n) => are_cells(c, n, cells),
        _ => true,
    }
}

/// Whether a jump from `p` to `t` goes to a place of the same body, and to a `Turn` if it isn't forward.
fn is_target(code: &ActorCode, bodies: &[u32], p: usize, t: usize) -> bool
    requires table { IsTableOf (length code.now.instrs.items)
        (body_of (code_of code.now)) bodies.now }
    requires inside { p < length code.now.instrs.items }
    ensures { MatchBool result (IsTarget (code_of code.now) p t)
        (¬ IsTarget (code_of code.now) p t) }
{
    if t >= code.instrs.len() || bodies[t] != bodies[p] {
        return false;
    }
    p < t || matches!(code.instrs[t], Instr::Turn)
}

/// Whether the jump of the instruction at `p`, if it is one, goes where it may.
fn jumps_inside(code: &ActorCode, bodies: &[u32], p: usize, instr: &Instr) -> bool
    requires table { IsTableOf (length code.now.instrs.items)
        (body_of (code_of code.now)) bodies.now }
    requires inside { p < length code.now.instrs.items }
    ensures { MatchBool result (JumpsInside (code_of code.now) p instr.now)
        (¬ JumpsInside (code_of code.now) p instr.now) }
{
    match *instr {
        Instr::Jump(t) => is_target(code, bodies, p, t as usize),
        Instr::JumpIfNot(t) => is_target(code, bodies, p, t as usize),
        _ => true,
    }
}

/// Whether the place after an instruction that goes on is one of the same body.
fn stays_inside(code: &ActorCode, places: &[u32], p: usize, instr: &Instr) -> bool
    requires places { places.now ≡ begins (code_of code.now) }
    requires small { p < 4294967295 }
    ensures { MatchBool result (StaysInside (code_of code.now) p instr.now)
        (¬ StaysInside (code_of code.now) p instr.now) }
{
    if !goes_on(instr) {
        return true;
    }
    p + 1 < code.instrs.len() && !is_among((p + 1) as u32, places)
}

/// Whether the instruction at `p` meets each line but that of heights.
pub(crate) fn fits_alone(code: &ActorCode, places: &[u32], bodies: &[u32], p: usize) -> bool
    requires places { places.now ≡ begins (code_of code.now) }
    requires table { IsTableOf (length code.now.instrs.items)
        (body_of (code_of code.now)) bodies.now }
    requires inside { p < length code.now.instrs.items }
    requires small { p < 4294967295 }
    ensures { (i : TheInstr) → slice_get code.now.instrs.items p ≡ Some i
        → MatchBool result (FitsAlone (code_of code.now) p i) (¬ FitsAlone (code_of code.now) p i) }
{
    let instr = code.instrs[p];
    let routine = routine_at(&code.routines, bodies[p]);
    stands_in_body(&instr, routine, code.routines.len())
        && jumps_inside(code, bodies, p, &instr)
        && names_cells(&instr, code.cells)
        && calls_smaller(&instr, routine)
        && stays_inside(code, places, p, &instr)
}

/// The first place whose instruction breaks a line other than that of heights.
pub(crate) fn first_unfit(code: &ActorCode, places: &[u32], bodies: &[u32]) -> Option<u32>
    requires places { places.now ≡ begins (code_of code.now) }
    requires table { IsTableOf (length code.now.instrs.items)
        (body_of (code_of code.now)) bodies.now }
    requires small { length code.now.instrs.items ≤ 4294967295 }
    ensures { MatchOption result (AllFitAlone (code_of code.now)) (IsUnfit (code_of code.now)) }
{
    for p in 0..code.instrs.len() {
        if !fits_alone(code, places, bodies, p) {
            return Some(p as u32);
        }
    }
    None
}
