//! The reports of verbs.

ghost use Rattle.std.specs.Prelude.{◌≡◌, true};
ghost use Rattle.cmd_report.specs.About.{about};
ghost use Rattle.cmd_report.specs.Puts.{Puts};
ghost use Rattle.cmd_report.specs.Report.{certified_line, last_line, report, run_lines, size_lines};

use crate::last_line::put_last_line;
use crate::lines::{put_certified, put_run_lines, put_size};
use crate::puts::REPORT_CHANNEL;
use crate::status::Status;
use crate::subject::Subject;
use net_model::Counts;
use rvc_io::{Drains, Failed};

/// Puts the report of a command that made or replayed a run, or tried to: the numbers of instances and links, of certified
/// instances if that is known, of firings and rounds, a line for each input link and one for each output, and the last
/// line. `counts` has a place for each link and one for each output, in their order.
///
/// If the command didn't come to its end, the last line comes alone.
///
/// # Errors
///
/// `Failed` if a put failed, which was counted: a prefix of the report was put.
pub fn report_run<D: Drains>(
    status: &Status,
    subject: &Subject<'_>,
    certified: Option<u64>,
    counts: &Counts,
    drains: &mut D,
) -> Result<(), Failed>
    requires { (D.channels drains.old).is_open REPORT_CHANNEL ≡ true }
    ensures { Puts result
        (report (run_lines (about subject.now) certified counts.now) (about subject.now) status.now)
        (D.channels drains.old) (D.channels drains.new) }
{
    if !status.came_to_its_end() {
        return put_last_line(status, subject, drains);
    }
    put_run_lines(subject, certified, counts, drains)?;
    put_last_line(status, subject, drains)
}

/// Puts the report of a command that checked a network, or tried to: the numbers of instances and links, and the last line.
///
/// If the command didn't come to its end, the last line comes alone.
///
/// # Errors
///
/// `Failed` if a put failed, which was counted: a prefix of the report was put.
pub fn report_check<D: Drains>(
    status: &Status,
    subject: &Subject<'_>,
    drains: &mut D,
) -> Result<(), Failed>
    requires { (D.channels drains.old).is_open REPORT_CHANNEL ≡ true }
    ensures { Puts result
        (report (size_lines (about subject.now)) (about subject.now) status.now)
        (D.channels drains.old) (D.channels drains.new) }
{
    if !status.came_to_its_end() {
        return put_last_line(status, subject, drains);
    }
    put_size(subject, drains)?;
    put_last_line(status, subject, drains)
}

/// Puts the report of a command that certified a network, or tried to: how many instances are certified, and the last line.
///
/// If the command didn't come to its end, the last line comes alone.
///
/// # Errors
///
/// `Failed` if a put failed, which was counted: a prefix of the report was put.
pub fn report_certify<D: Drains>(
    status: &Status,
    subject: &Subject<'_>,
    certified: u64,
    drains: &mut D,
) -> Result<(), Failed>
    requires { (D.channels drains.old).is_open REPORT_CHANNEL ≡ true }
    ensures { Puts result
        (report (certified_line certified) (about subject.now) status.now)
        (D.channels drains.old) (D.channels drains.new) }
{
    if !status.came_to_its_end() {
        return put_last_line(status, subject, drains);
    }
    put_certified(certified, drains)?;
    put_last_line(status, subject, drains)
}

/// Puts the last line alone, as the report of a command that has nothing to count.
///
/// # Errors
///
/// `Failed` if a put failed, which was counted: a prefix of the report was put.
pub fn report_end<D: Drains>(
    status: &Status,
    subject: &Subject<'_>,
    drains: &mut D,
) -> Result<(), Failed>
    requires { (D.channels drains.old).is_open REPORT_CHANNEL ≡ true }
    ensures { Puts result (last_line (about subject.now) status.now) (D.channels drains.old)
        (D.channels drains.new) }
{
    put_last_line(status, subject, drains)
}
