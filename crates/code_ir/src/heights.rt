//! The heights of the stack on the ways through the code.

ghost use Rattle.std.specs.Prelude.{◌≡◌, ◌≢◌, ◌+◌, ◌-◌, ◌*◌, ◌≤◌, ◌<◌, ◌⊎◌, ℕ, List, length, slice_get, Option, Some, OnOk, IfOk, IfErr, true, [], MatchOption};
ghost use Rattle.std.specs.Bool.{MatchBool};
ghost use Rattle.code_ir.specs.declared.instr.Instr.{Instr as TheInstr};
ghost use Rattle.code_ir.specs.Code.{begins, body_of, code_of, is_among};
ghost use Rattle.code_ir.specs.Typing.{AllFitAlone, LeavesResults, PlacesStand, Way, goes_on, pops, pushes, target};
ghost use Rattle.code_ir.specs.Marked.{IsHeightFault};
ghost use Rattle.code_ir.specs.Heights.{Differs, Grows, HaveOneHeight, IsBadHeight, IsEnough, IsMarked, IsPassedOn, Marking};
ghost use Rattle.code_ir.specs.Marked.{MatchMarked, MatchPassed};
ghost use Rattle.code_ir.specs.Tables.{IsTableOf};

use crate::admitted::CodeFault;
use crate::instr::{ActorCode, Instr};
use crate::lines::{goes_on, pops, pushes, results_of, target};
use crate::places::routine_at;
use rvc_base::Memory;
use std::alloc::{AllocError, Global};

/// What marking a place comes to.
#[derive(Clone, Copy)]
pub(crate) enum Marked {
    Done,
    /// The place has another height already.
    Conflict,
    Memory,
}

/// What passing a height on comes to.
#[derive(Clone, Copy)]
pub(crate) enum Passed {
    Done,
    /// The instruction at this place breaks the line of heights.
    Bad(u32),
    Memory,
}

/// Marks a place with a height. A place that had none is to be worked on.
fn mark(heights: &mut Vec<Option<u32>>, work: &mut Vec<u32>, place: u32, height: u32) -> Marked
    requires { place < length heights.old.items }
    ensures marked { MatchMarked result (IsMarked heights.new.items place height)
        (Differs heights.old.items place height) }
    ensures grows { MatchMarked result
        (Grows (λ q k. (q ≡ place) × (k ≡ height)) heights.old.items heights.new.items
        work.old.items work.new.items) (Differs heights.old.items place height) }
{
    match heights[place as usize] {
        Some(other) => {
            if other == height {
                Marked::Done
            } else {
                Marked::Conflict
            }
        }
        None => {
            let Ok(()) = work.push(place) else {
                return Marked::Memory
            };
            heights[place as usize] = Some(height);
            Marked::Done
        }
    }
}

/// Whether a routine's body that ends here has the height of its results.
fn leaves_results(code: &ActorCode, bodies: &[u32], place: u32, height: u32, instr: &Instr) -> bool
    requires table { IsTableOf (length code.now.instrs.items)
        (body_of (code_of code.now)) bodies.now }
    requires inside { place < length code.now.instrs.items }
    ensures { MatchBool result (LeavesResults (code_of code.now) place height instr.now)
        (¬ LeavesResults (code_of code.now) place height instr.now) }
{
    match instr {
        Instr::Return => {
            let routine = routine_at(&code.routines, bodies[place as usize]);
            height == results_of(code, routine)
        }
        _ => true,
    }
}

/// Passes a height on to the next place, if the instruction goes on.
fn pass_to_next(
    heights: &mut Vec<Option<u32>>,
    work: &mut Vec<u32>,
    instr: &Instr,
    place: u32,
    height: u32,
) -> Passed
    requires inside { goes_on instr.now ≡ true → place + 1 < length heights.old.items }
    requires small { place < 4294967295 }
    ensures passed { MatchPassed result
        (goes_on instr.now ≡ true → IsMarked heights.new.items (place + 1) height)
        (λ at. (at ≡ place + 1) × (goes_on instr.now ≡ true)
        × Differs heights.old.items (place + 1) height) }
    ensures grows { MatchPassed result
        (Grows (λ q k. (goes_on instr.now ≡ true) × (q ≡ place + 1) × (k ≡ height))
        heights.old.items heights.new.items work.old.items work.new.items) (λ _. Unit {0}) }
{
    if !goes_on(instr) {
        return Passed::Done;
    }
    match mark(heights, work, place + 1, height) {
        Marked::Done => Passed::Done,
        Marked::Conflict => Passed::Bad(place + 1),
        Marked::Memory => Passed::Memory,
    }
}

/// Passes a height on to the target of a jump.
fn pass_to_target(
    heights: &mut Vec<Option<u32>>,
    work: &mut Vec<u32>,
    instr: &Instr,
    height: u32,
) -> Passed
    requires inside { (t : ℕ) → target instr.now ≡ Some t → t < length heights.old.items }
    ensures passed { MatchPassed result
        ((t : ℕ) → target instr.now ≡ Some t → IsMarked heights.new.items t height)
        (λ at. (target instr.now ≡ Some at) × Differs heights.old.items at height) }
    ensures grows { MatchPassed result
        (Grows (λ q k. (target instr.now ≡ Some q) × (k ≡ height)) heights.old.items
        heights.new.items work.old.items work.new.items) (λ _. Unit {0}) }
{
    match target(instr) {
        None => Passed::Done,
        Some(t) => {
            match mark(heights, work, t, height) {
                Marked::Done => Passed::Done,
                Marked::Conflict => Passed::Bad(t),
                Marked::Memory => Passed::Memory,
            }
        }
    }
}

/// Passes the height of a place on to the places that may come next.
fn pass_on(
    heights: &mut Vec<Option<u32>>,
    work: &mut Vec<u32>,
    code: &ActorCode,
    bodies: &[u32],
    place: u32,
) -> Passed
    requires alone { AllFitAlone (code_of code.now) }
    requires table { IsTableOf (length code.now.instrs.items)
        (body_of (code_of code.now)) bodies.now }
    requires small { length code.now.instrs.items ≤ 4294967295 }
    requires size { length heights.old.items ≡ length code.now.instrs.items }
    requires sound { (q k : ℕ) → IsMarked heights.old.items q k → Way (code_of code.now) q k }
    requires marked { (h : ℕ) × IsMarked heights.old.items place h }
    ensures passed { MatchPassed result
        ((h : ℕ) → IsMarked heights.old.items place h
        → IsPassedOn (code_of code.now) heights.new.items place h)
        (IsBadHeight (code_of code.now)) }
    ensures grows { MatchPassed result
        (Grows (Way (code_of code.now)) heights.old.items heights.new.items work.old.items
        work.new.items) (λ _. Unit {0}) }
{
    let instr = code.instrs[place as usize];
    let Some(height) = heights[place as usize] else {
        unreachable!()
    };
    let popped = pops(&instr);
    if popped > height || !leaves_results(code, bodies, place, height, &instr) {
        return Passed::Bad(place);
    }
    let Some(after) = (height - popped).checked_add(pushes(code, &instr)) else {
        return Passed::Memory
    };
    match pass_to_next(heights, work, &instr, place, after) {
        Passed::Done => pass_to_target(heights, work, &instr, after),
        Passed::Bad(at) => Passed::Bad(at),
        Passed::Memory => Passed::Memory,
    }
}

/// Passes heights on until no place is left.
fn pass_all(
    heights: &mut Vec<Option<u32>>,
    work: &mut Vec<u32>,
    code: &ActorCode,
    bodies: &[u32],
) -> Passed
    requires alone { AllFitAlone (code_of code.now) }
    requires table { IsTableOf (length code.now.instrs.items)
        (body_of (code_of code.now)) bodies.now }
    requires small { length code.now.instrs.items ≤ 4294967295 }
    requires marking { Marking (code_of code.now) heights.old.items work.old.items }
    ensures { MatchPassed result (Marking (code_of code.now) heights.new.items [])
        (IsBadHeight (code_of code.now)) }
{
    while let Some(place) = work.pop() {
        match pass_on(heights, work, code, bodies, place) {
            Passed::Done => {}
            Passed::Bad(at) => return Passed::Bad(at),
            Passed::Memory => return Passed::Memory,
        }
    }
    Passed::Done
}

/// Marks the starts of the bodies with 0.
fn mark_begins(
    heights: &mut Vec<Option<u32>>,
    work: &mut Vec<u32>,
    places: &[u32],
) -> Result<(), Memory>
    requires none { (q k : ℕ) → ¬ IsMarked heights.old.items q k }
    requires no_work { work.old.items ≡ [] }
    requires inside { (q : ℕ) → is_among q places.now ≡ true → q < length heights.old.items }
    ensures grows { OnOk result (Grows
        (λ q k. (k ≡ 0) × (is_among q places.now ≡ true)) heights.old.items heights.new.items []
        work.new.items) }
    ensures begun { OnOk result ((q : ℕ) → is_among q places.now ≡ true
        → IsMarked heights.new.items q 0) }
{
    for place in places {
        match mark(heights, work, *place, 0) {
            Marked::Done => {}
            Marked::Conflict => unreachable!(),
            Marked::Memory => return Err(Memory),
        }
    }
    Ok(())
}

/// The greatest of the heights, 0 if there is none.
fn greatest(heights: &[Option<u32>]) -> u32
    ensures { (p h : ℕ) → IsMarked heights.now p h → h ≤ result }
{
    let mut most = 0;
    for height in heights {
        match *height {
            None => {}
            Some(height) => {
                if height > most {
                    most = height;
                }
            }
        }
    }
    most
}

/// Finds the heights on all ways, or where the line of heights is broken. The greatest of them comes back.
pub(crate) fn find_heights(
    alloc: Global,
    code: &ActorCode,
    places: &[u32],
    bodies: &[u32],
) -> Result<u32, CodeFault>
    requires places { places.now ≡ begins (code_of code.now) }
    requires stand { PlacesStand (code_of code.now) }
    requires alone { AllFitAlone (code_of code.now) }
    requires table { IsTableOf (length code.now.instrs.items)
        (body_of (code_of code.now)) bodies.now }
    requires small { length code.now.instrs.items ≤ 4294967295 }
    ensures ok { IfOk result (λ most. HaveOneHeight (code_of code.now)
        × ((p h : ℕ) → Way (code_of code.now) p h → h ≤ most)) }
    ensures bad { IfErr result (IsHeightFault (code_of code.now)) }
{
    let size = code.instrs.len();
    let Ok(mut heights) = no_heights(alloc, size) else {
        return Err(CodeFault::Memory)
    };
    let mut work = Vec::new(alloc);
    let Ok(()) = mark_begins(&mut heights, &mut work, places) else {
        return Err(CodeFault::Memory)
    };
    match pass_all(&mut heights, &mut work, code, bodies) {
        Passed::Done => Ok(greatest(&heights)),
        Passed::Bad(at) => Err(CodeFault::Bad { at }),
        Passed::Memory => Err(CodeFault::Memory),
    }
}

/// Heights of so many places, none of which is marked.
fn no_heights(alloc: Global, size: usize) -> Result<Vec<Option<u32>>, AllocError>
    ensures size { IfOk result (λ v. length v.items ≡ size) }
    ensures none { IfOk result (λ v. (q k : ℕ) → ¬ IsMarked v.items q k) }
{
    let mut heights = Vec::new(alloc);
    for _place in 0..size {
        heights.push(None)?;
    }
    Ok(heights)
}
