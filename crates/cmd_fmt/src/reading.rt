//! The text of the file is read.

ghost use Rattle.std.specs.Prelude.{◌≡◌, ◌≤◌, IfErr, IfOk};
ghost use Rattle.std.specs.Result.{IsErrOf};
ghost use Rattle.rvc_base.specs.declared.refusal.Refusal.{Refusal as Denial};
ghost use Rattle.rvc_io.specs.Count.{HasRisen};
ghost use Rattle.cal_files.specs.FileText.{IsText};
ghost use Rattle.cmd_fmt.specs.Formatting.{IsPreparing, IsUnread};
ghost use Rattle.cmd_report.specs.declared.status.ReadAt.{ReadAt as Where};

use cmd_report::{ReadAt, Status};
use rvc_base::{Place, Refusal, Rule};
use rvc_io::{Library, MAX_FILE_BYTES, ReadAnswer};
use std::alloc::Global;

/// The number of the file.
pub(crate) const SOURCE_FILE: u32 = 1;

/// A refusal of the command line.
fn refused_words(rule: Rule) -> Status
    ensures { result ≡ Status.Refused (record {
      rule = rule;
      place = record
          { file = 0; offset = 0 };
    }) }
{
    Status::Refused(Refusal {
        rule,
        place: Place { file: 0, offset: 0 },
    })
}

/// A refusal of the file.
fn refused_source(rule: Rule, offset: u32) -> Status
    ensures { result ≡ Status.Refused (record {
      rule = rule;
      place = record
          { file = 1; offset = offset };
    }) }
{
    Status::Refused(Refusal {
        rule,
        place: Place {
            file: SOURCE_FILE,
            offset,
        },
    })
}

/// Reads the file of this name.
pub(crate) fn read_top<L: Library>(
    alloc: Global,
    top: &str,
    library: &mut L,
) -> Result<Vec<u8>, Status>
    ensures found { IfOk result (λ source. IsText (L.file library.old top.now) source.items) }
    ensures refused { (refusal : Denial) → IsErrOf result (Status.Refused refusal)
        → IsUnread (L.file library.old top.now) (L.misses library.old) (L.misses library.new)
        refusal }
    ensures fault { (place : Where) → IsErrOf result (Status.ReadFault place)
        → HasRisen (L.faults library.old) (L.faults library.new) }
    ensures only { IfErr result IsPreparing }
    ensures misses_stay { L.misses library.old ≤ L.misses library.new }
    ensures faults_stay { L.faults library.old ≤ L.faults library.new }
{
    let mut source = Vec::new(alloc);
    match library.read(alloc, top, &mut source) {
        ReadAnswer::Found => {
            if source.len() > MAX_FILE_BYTES {
                Err(refused_source(Rule::FILE_TOO_LONG, MAX_FILE_BYTES as u32))
            } else {
                Ok(source)
            }
        }
        ReadAnswer::Missing => Err(refused_words(Rule::NO_FILE)),
        ReadAnswer::Failed => Err(Status::ReadFault(ReadAt::File(SOURCE_FILE))),
        ReadAnswer::TooLong => Err(refused_source(Rule::FILE_TOO_LONG, MAX_FILE_BYTES as u32)),
        ReadAnswer::Memory => Err(Status::OutOfMemory),
    }
}
