//! How many numbers a range has.

ghost use Rattle.std.specs.Prelude.{◌≡◌};
ghost use Rattle.cal_model.specs.Expression.{span};
ghost use Rattle.const_env.specs.Fitting.{capped};

use cal_model::MAX_LIST_SCALARS;
use rvc_base::Num;

/// How many numbers there are from one to another, or one more than the limit of a list if they are more.
pub fn span(low: Num, high: Num) -> u32
    ensures { result ≡ capped (span low high) }
{
    if high < low {
        return 0;
    }
    let Ok(steps) = u32::try_from(high.abs_diff(low)) else {
        return MAX_LIST_SCALARS + 1;
    };
    if steps >= MAX_LIST_SCALARS {
        return MAX_LIST_SCALARS + 1;
    }
    steps + 1
}
