//! Reports that know no network.

ghost use Rattle.std.specs.Prelude.{◌≡◌, true};
ghost use Rattle.cmd_report.specs.About.{about};
ghost use Rattle.cmd_report.specs.Report.{last_line};
ghost use Rattle.cmd_network.specs.Steps.{IsPut, about_words};

use crate::status::answered;
use cal_files::Names;
use cmd_report::{REPORT_CHANNEL, Status, Subject, report_end};
use rvc_io::Drains;
use rvc_words::Job;

/// What a report speaks of that knows no network: the files that were read, the trace and the port words.
pub fn files_subject<'a>(names: &'a Names, job: &'a Job) -> Subject<'a>
    ensures { about result ≡ about_words names.entry.now job.entry.now }
{
    Subject {
        files: names.files.as_slice(),
        trace: job.trace.as_str(),
        words: job.ports.as_slice(),
        instances: 0,
        links: &[],
        ins: &[],
        outs: &[],
    }
}

/// Puts the last line of a status alone, and gives that status; if it can't be put, which is counted, the write fault of
/// channel 0.
pub fn report_unbuilt<D: Drains>(said: Status, names: &Names, job: &Job, drains: &mut D) -> Status
    requires { (D.channels drains.old).is_open REPORT_CHANNEL ≡ true }
    ensures { IsPut said (last_line (about_words names.now job.now) said) (D.channels drains.old)
        (D.channels drains.new) result }
{
    let subject = files_subject(names, job);
    let put = report_end(&said, &subject, drains);
    answered(said, put)
}
