//! The places that begin bodies.

ghost use Rattle.std.specs.Prelude.{◌≡◌, ◌≤◌, ◌<◌, ℕ, List, length, take, slice_get, Some, IfOk, MatchOption, true};
ghost use Rattle.code_ir.specs.Code.{begins, body_of, code_of, is_among, routine_at};
ghost use Rattle.code_ir.specs.Typing.{AreDistinct, IsFirstWrong};
ghost use Rattle.code_ir.specs.Tables.{IsTableOf};

use crate::instr::{ActorCode, Routine};
use std::alloc::{AllocError, Global};

/// The starts of the routines, then the entries.
pub(crate) fn places(alloc: Global, code: &ActorCode) -> Result<Vec<u32>, AllocError>
    ensures { IfOk result (λ v. v.items ≡ begins (code_of code.now)) }
{
    let mut places = Vec::new(alloc);
    for routine in &code.routines {
        places.push(routine.start)?;
    }
    places.extend_from_slice(&code.entries)?;
    Ok(places)
}

/// Whether a place is among these.
pub(crate) fn is_among(place: u32, places: &[u32]) -> bool
    ensures { result ≡ is_among place places.now }
{
    for other in places {
        if *other == place {
            return true;
        }
    }
    false
}

/// The first of the places that is outside the code or among those before it.
pub(crate) fn first_wrong(places: &[u32], size: usize) -> Option<u32>
    ensures { MatchOption result (AreDistinct size places.now) (IsFirstWrong size places.now) }
{
    for (k, place) in places.iter().enumerate() {
        if *place as usize >= size || is_among(*place, &places[..k]) {
            return Some(*place);
        }
    }
    None
}

/// Where the body of each place of the code begins.
pub(crate) fn bodies(
    alloc: Global,
    code: &ActorCode,
    places: &[u32],
) -> Result<Vec<u32>, AllocError>
    requires { places.now ≡ begins (code_of code.now) }
    ensures { IfOk result (λ v. IsTableOf (length code.now.instrs.items)
        (body_of (code_of code.now)) v.items) }
{
    let size = code.instrs.len();
    let mut bodies = Vec::new(alloc);
    let mut body = 0;
    for p in 0..size {
        let Ok(place) = u32::try_from(p) else {
            return Err(AllocError)
        };
        if is_among(place, places) {
            body = place;
        }
        bodies.push(body)?;
    }
    Ok(bodies)
}

/// The number of the routine whose body begins at a place; as many as there are routines if none does.
pub(crate) fn routine_at(routines: &[Routine], place: u32) -> usize
    ensures { result ≡ routine_at routines.now place }
{
    for (r, routine) in routines.iter().enumerate() {
        if routine.start == place {
            return r;
        }
    }
    routines.len()
}
