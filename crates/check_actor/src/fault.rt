//! Faults with their file.

ghost use Rattle.std.specs.Prelude.{◌≡◌, List};
ghost use Rattle.cal_check.specs.Variables.{found_in};
ghost use Rattle.cal_check.specs.Violations.{Violation};
ghost use Rattle.check_stmt.specs.Judging.{Refuses};
ghost use Rattle.check_given.specs.Causes.{IsCause};
ghost use Rattle.check_actor.specs.Parts.{placed};

use const_eval::KindFault;
use rvc_base::{Front, Place, Refusal};

/// A fault in a file.
pub(crate) fn in_file(file: u32, fault: KindFault) -> Front
    ensures { (broken : List Violation) → Refuses fault broken → IsCause result (found_in file broken) }
{
    match fault {
        KindFault::Broken { rule, at } => {
            let place = Place { file, offset: at };
            Front::Refused(Refusal { rule, place })
        }
        KindFault::Memory => Front::Memory,
    }
}

/// The same fault, in a file.
pub(crate) fn placed(file: u32, fault: KindFault) -> Front
    ensures { result ≡ placed file fault }
{
    match fault {
        KindFault::Broken { rule, at } => Front::Refused(Refusal {
            rule,
            place: Place { file, offset: at },
        }),
        KindFault::Memory => Front::Memory,
    }
}
