//! What is written on channel 0.

ghost use Rattle.std.specs.Prelude.{◌≡◌, true, string_bytes};
ghost use Rattle.cmd_report.specs.Report.{last_line};
ghost use Rattle.cmd_fmt.specs.Reports.{Reports, about_file};

use channel_writer::put_all;
use cmd_report::{REPORT_CHANNEL, Status, Subject, report_end};
use rvc_io::{Drains, Failed};
use std::slice;

/// Puts a text in place of a report.
pub(crate) fn put_printed<D: Drains>(printed: &[u8], drains: &mut D) -> Status
    requires { (D.channels drains.old).is_open REPORT_CHANNEL ≡ true }
    ensures { Reports Status.Done printed.now (D.channels drains.old) (D.channels drains.new) result }
{
    match put_all(drains, REPORT_CHANNEL, printed) {
        Ok(()) => Status::Done,
        Err(Failed) => Status::WriteFault {
            channel: REPORT_CHANNEL,
        },
    }
}

/// Puts the report of a file of this name that isn't printed, and gives the status.
pub(crate) fn report<D: Drains>(said: Status, top: &String, drains: &mut D) -> Status
    requires { (D.channels drains.old).is_open REPORT_CHANNEL ≡ true }
    ensures { Reports said (last_line (about_file (string_bytes top.now)) said)
        (D.channels drains.old) (D.channels drains.new) result }
{
    let subject = Subject {
        files: slice::from_ref(top),
        trace: "",
        words: &[],
        instances: 0,
        links: &[],
        ins: &[],
        outs: &[],
    };
    match report_end(&said, &subject, drains) {
        Ok(()) => said,
        Err(Failed) => Status::WriteFault {
            channel: REPORT_CHANNEL,
        },
    }
}
