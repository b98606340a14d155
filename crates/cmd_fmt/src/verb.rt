//! The call of the verb.

ghost use Rattle.std.specs.Prelude.{◌≡◌, true, map, string_bytes};
ghost use Rattle.rvc_io.specs.Channels.{WriteFails, WritesOnly};
ghost use Rattle.rvc_io.specs.Count.{HasRisen};
ghost use Rattle.rvc_base.specs.declared.refusal.Refusal.{Refusal as Denial};
ghost use Rattle.cal_ast.specs.Tree.{Tree};
ghost use Rattle.rvc_words.specs.Words.{job_text, port_text};
ghost use Rattle.cmd_fmt.specs.Formatting.{HasFile, IsDoneOrMemory, IsPrinting, IsUnprinted, PrintsFile, library_met};
ghost use Rattle.cmd_fmt.specs.Reports.{IsCutShort, ReportIs, about_file};

use crate::printing::canonical_text;
use crate::reporting::{put_printed, report};
use cmd_report::{REPORT_CHANNEL, Status};
use rvc_io::{Drains, Library};
use rvc_words::Job;
use std::alloc::Global;

/// Writes the canonical text of the file that a job names on channel 0, or reports why it can't. Nothing is opened.
///
/// - `formatted`: if the answer is `Done`, the file's text spells a tree, no words name ports, and channel 0 got
///   the canonical text of that tree and nothing else.
/// - `complete`: a text that spells a file is printed, unless memory runs out or a count of faults rose.
///
/// # Errors
///
/// `Refused`: the file lacks, passes its limit, or breaks a rule of the lexis or the grammar at its place, or its text
/// spells a file and the first port word is refused (`refused`). `ReadFault` of file 1 and `WriteFault` of channel 0: the
/// count of faults of what it names rose (`faults`). After this `WriteFault` channel 0 got a prefix of the canonical text, or
/// of the last line that says why there is none (`cut`). `OutOfMemory`: an allocation was refused.
pub fn format_job<L: Library, D: Drains>(
    alloc: Global,
    job: &Job,
    library: &mut L,
    drains: &mut D,
) -> Status
    requires { (D.channels drains.old).is_open REPORT_CHANNEL ≡ true }
    ensures formatted { result ≡ Status.Done
        → PrintsFile (L.file library.old (string_bytes job.now.top))
        (map port_text job.now.ports.items) (D.channels drains.old) (D.channels drains.new) }
    ensures refused { (refusal : Denial) → result ≡ Status.Refused refusal
        → IsUnprinted (map port_text job.now.ports.items)
        (L.file library.old (string_bytes job.now.top)) (L.misses library.old)
        (L.misses library.new) refusal }
    ensures complete { (tree : Tree)
        → HasFile (L.file library.old (string_bytes job.now.top))
        (map port_text job.now.ports.items) tree
        → (HasRisen (L.faults library.old) (L.faults library.new) → ⊥)
        → (WriteFails D.channels drains.old drains.new → ⊥) → IsDoneOrMemory result }
    ensures faults { IsPrinting (L.faults library.old) (L.faults library.new)
        (D.channels drains.old).faults (D.channels drains.new).faults result }
    ensures reported { ReportIs (about_file (string_bytes job.now.top)) result
        (D.channels drains.old) (D.channels drains.new) }
    ensures cut { result ≡ Status.WriteFault 0
        → IsCutShort (library_met L.file L.misses L.faults library.old library.new)
        (job_text job.now) (D.channels drains.old) (D.channels drains.new) }
    ensures keeps { WritesOnly D.channels drains.old drains.new 0 }
{
    match canonical_text(alloc, job.top.as_str(), job.ports.as_slice(), library) {
        Ok(printed) => put_printed(printed.as_slice(), drains),
        Err(status) => report(status, &job.top, drains),
    }
}
