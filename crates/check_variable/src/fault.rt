//! Faults with their file.

ghost use Rattle.std.specs.Prelude.{◌≡◌, ◌==◌, List};
ghost use Rattle.rvc_base.specs.Rules.{not_constant};
ghost use Rattle.cal_check.specs.Variables.{found_in};
ghost use Rattle.cal_check.specs.Violations.{Violation};
ghost use Rattle.check_stmt.specs.Judging.{Refuses};
ghost use Rattle.check_variable.specs.Causes.{SaysFault};
ghost use Rattle.check_given.specs.Causes.{IsCause, SaysRule};

use const_eval::KindFault;
use rvc_base::{Front, Place, Refusal, Rule};

/// A fault in a file.
pub(crate) fn in_file(file: u32, fault: KindFault) -> Front
    ensures cause { (broken : List Violation) → Refuses fault broken
        → IsCause result (found_in file broken) }
    ensures said { SaysFault fault → SaysRule result }
{
    match fault {
        KindFault::Broken { rule, at } => {
            let place = Place { file, offset: at };
            Front::Refused(Refusal { rule, place })
        }
        KindFault::Memory => Front::Memory,
    }
}

/// Whether a rule is that of what isn't constant.
pub(crate) fn is_not_constant(rule: Rule) -> bool
    ensures { result ≡ (rule.0 == not_constant.0) }
{
    rule.0 == Rule::NOT_CONSTANT.0
}
