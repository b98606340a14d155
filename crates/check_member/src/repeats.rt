//! How often patterns and outputs are repeated.

ghost use Rattle.std.specs.Prelude.{Some};
ghost use Rattle.cal_check.specs.Actions.{rate_judged, repeat_of};
ghost use Rattle.check_member.specs.Judging.{Judges};

use crate::fault::MemberFault;
use rvc_base::{Num, Rule};

/// The most tokens that an action takes from a port or gives on one.
const MAX_RATE: u32 = 4096;

/// How often a pattern or an output at an offset is repeated whose `repeat` is this number.
///
/// # Errors
///
/// `Broken`: Z5 if it is below 1, or above 4,096.
pub fn repeat_of(number: Num, at: u32) -> Result<u32, MemberFault>
    ensures { Judges Some result (repeat_of number at) }
{
    if number < 1 || number > Num::from(MAX_RATE) {
        return Err(MemberFault::broken(Rule::WRONG_REPEAT, at));
    }
    Ok(number as u32)
}

/// Whether so many names or values, as often as they are repeated, are at most 4,096 tokens.
///
/// # Errors
///
/// `Broken`: Z5 at the pattern or output.
pub fn check_rate(parts: usize, repeat: Option<u32>, at: u32) -> Result<(), MemberFault>
    ensures { Judges (λ u. u) result (rate_judged parts repeat tt at) }
{
    let times = repeat.unwrap_or(1);
    match parts.checked_mul(times as usize) {
        Some(tokens) if tokens <= MAX_RATE as usize => Ok(()),
        _ => Err(MemberFault::broken(Rule::WRONG_REPEAT, at)),
    }
}
