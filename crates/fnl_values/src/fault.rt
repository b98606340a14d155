//! Faults with their file.

ghost use Rattle.std.specs.Prelude.{List};
ghost use Rattle.cal_check.specs.Variables.{found_in};
ghost use Rattle.cal_check.specs.Violations.{Violation};
ghost use Rattle.fnl_values.specs.Causes.{Refuses};
ghost use Rattle.check_given.specs.Causes.{IsCause};

use const_eval::KindFault;
use rvc_base::{Front, Place, Refusal};

/// A fault in a file.
pub(crate) fn in_file(file: u32, fault: KindFault) -> Front
    ensures { (broken : List Violation) → Refuses fault broken
        → IsCause result (found_in file broken) }
{
    match fault {
        KindFault::Broken { rule, at } => {
            let place = Place { file, offset: at };
            Front::Refused(Refusal { rule, place })
        }
        KindFault::Memory => Front::Memory,
    }
}
