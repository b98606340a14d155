//! The report of a check.

ghost use Rattle.std.specs.Prelude.{◌≡◌, true};
ghost use Rattle.cmd_report.specs.About.{about};
ghost use Rattle.cmd_report.specs.Report.{report, size_lines};
ghost use Rattle.cmd_network.specs.Steps.{IsPut};
ghost use Rattle.cmd_check.specs.Steps.{about_checked};

use cal_files::Names;
use cmd_network::answered;
use cmd_report::{REPORT_CHANNEL, Status, Subject, report_check};
use network_check::Checked;
use rvc_io::Drains;
use rvc_words::Job;

/// What the report speaks of, with a network that was checked.
fn checked_subject<'a>(checked: &'a Checked, names: &'a Names, job: &'a Job) -> Subject<'a>
    ensures { about result ≡ about_checked checked.entry.now names.entry.now job.entry.now }
{
    let flat = checked.wiring();
    Subject {
        files: names.files.as_slice(),
        trace: job.trace.as_str(),
        words: job.ports.as_slice(),
        instances: checked.instances() as u64,
        links: flat.links.as_slice(),
        ins: flat.ins.as_slice(),
        outs: flat.outs.as_slice(),
    }
}

/// Puts the report of a network that was checked, and gives the status.
pub(crate) fn report_checked<D: Drains>(
    checked: &Checked,
    names: &Names,
    job: &Job,
    drains: &mut D,
) -> Status
    requires { (D.channels drains.old).is_open REPORT_CHANNEL ≡ true }
    ensures { IsPut Status.Done
        (report (size_lines (about_checked checked.now names.now job.now))
        (about_checked checked.now names.now job.now) Status.Done)
        (D.channels drains.old) (D.channels drains.new) result }
{
    let subject = checked_subject(checked, names, job);
    let put = report_check(&Status::Done, &subject, drains);
    answered(Status::Done, put)
}
