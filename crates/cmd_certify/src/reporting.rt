//! The report of certifying.

ghost use Rattle.std.specs.Prelude.{◌≡◌, true};
ghost use Rattle.cmd_report.specs.Report.{certified_line, report};
ghost use Rattle.cmd_network.specs.Steps.{IsPut, about_words};

use cal_files::Names;
use cmd_network::{answered, files_subject};
use cmd_report::{REPORT_CHANNEL, Status, report_certify};
use rvc_io::Drains;
use rvc_words::Job;

/// Puts the report of so many certified actors, and gives the status.
pub(crate) fn report_certified<D: Drains>(
    said: Status,
    certified: u64,
    names: &Names,
    job: &Job,
    drains: &mut D,
) -> Status
    requires { (D.channels drains.old).is_open REPORT_CHANNEL ≡ true }
    ensures { IsPut said
        (report (certified_line certified) (about_words names.now job.now) said)
        (D.channels drains.old) (D.channels drains.new) result }
{
    let subject = files_subject(names, job);
    let put = report_certify(&said, &subject, certified, drains);
    answered(said, put)
}
