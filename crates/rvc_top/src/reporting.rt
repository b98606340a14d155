//! Reports of words that aren't a job.

ghost use Rattle.std.specs.Prelude.{◌≡◌, true};
ghost use Rattle.cmd_report.specs.Report.{last_line};
ghost use Rattle.cmd_fmt.specs.Reports.{Reports};
ghost use Rattle.rvc_top.specs.Jobs.{about_words};

use cmd_report::{REPORT_CHANNEL, Status, Subject, report_end};
use rvc_io::{Drains, Failed};

/// Puts the last line of this status, and gives it.
pub(crate) fn report<D: Drains>(said: Status, drains: &mut D) -> Status
    requires { (D.channels drains.old).is_open REPORT_CHANNEL ≡ true }
    ensures { Reports said (last_line about_words said) (D.channels drains.old)
        (D.channels drains.new) result }
{
    let subject = Subject {
        files: &[],
        trace: "",
        words: &[],
        instances: 0,
        links: &[],
        ins: &[],
        outs: &[],
    };
    match report_end(&said, &subject, drains) {
        Ok(()) => said,
        Err(Failed) => Status::WriteFault {
            channel: REPORT_CHANNEL,
        },
    }
}
