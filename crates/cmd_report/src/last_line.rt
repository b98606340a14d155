//! The last line of a report.

ghost use Rattle.std.specs.Prelude.{◌≡◌, true};
ghost use Rattle.cmd_report.specs.About.{about};
ghost use Rattle.cmd_report.specs.Puts.{Puts};
ghost use Rattle.cmd_report.specs.Report.{last_line, no_run_line, reason_name, refusal_line, stall_line, trap_line, uncertified_line, usage, usage_lines, why_name};

use crate::names::{file_name, unread_name};
use crate::puts::{REPORT_CHANNEL, put_line};
use crate::status::Status;
use crate::subject::Subject;
use crate::words::Word;
use determinacy_cert::Reason;
use rvc_base::{ActId, InstId, LinkId, Refusal, Trap};
use rvc_io::{Drains, Failed};
use rvc_words::UsageCause;
use trace_replay::Why;

/// Puts the last line of a report, by how the command ended.
pub(crate) fn put_last_line<D: Drains>(
    status: &Status,
    subject: &Subject<'_>,
    drains: &mut D,
) -> Result<(), Failed>
    requires { (D.channels drains.old).is_open REPORT_CHANNEL ≡ true }
    ensures { Puts result (last_line (about subject.now) status.now) (D.channels drains.old)
        (D.channels drains.new) }
{
    match status {
        Status::Quiet => put_line(b"quiet", &[], drains),
        Status::Done => put_line(b"done", &[], drains),
        Status::Usage(cause) => put_usage(*cause, drains),
        Status::ReadFault(at) => {
            put_line(
                b"read fault",
                &[Word::Text(unread_name(subject, *at))],
                drains,
            )
        }
        Status::WriteFault { channel } => {
            put_line(b"write fault", &[Word::Number(u64::from(*channel))], drains)
        }
        Status::Refused(refusal) => put_refusal(refusal, subject, drains),
        Status::Trapped { inst, action, trap } => put_trap(*inst, *action, *trap, drains),
        Status::Stalled { inst, action, link } => put_stall(*inst, *action, *link, drains),
        Status::Budget { firings } => put_line(b"budget", &[Word::Number(*firings)], drains),
        Status::OutOfMemory => put_line(b"out of memory", &[], drains),
        Status::NotRun { line, why } => put_no_run(*line, *why, drains),
        Status::Uncertified {
            inst,
            state,
            a,
            b,
            reason,
        } => { put_uncertified(*inst, *state, *a, *b, *reason, drains) }
    }
}

/// Puts the cause why words aren't a job, and how the program is used.
fn put_usage<D: Drains>(cause: UsageCause, drains: &mut D) -> Result<(), Failed>
    requires { (D.channels drains.old).is_open REPORT_CHANNEL ≡ true }
    ensures { Puts result (usage_lines cause) (D.channels drains.old) (D.channels drains.new) }
{
    put_line(b"usage", &[Word::Text(cause.name().as_bytes())], drains)?;
    put_line(usage(), &[], drains)
}

/// Puts which rule is broken, in which file, and where.
fn put_refusal<D: Drains>(
    refusal: &Refusal,
    subject: &Subject<'_>,
    drains: &mut D,
) -> Result<(), Failed>
    requires { (D.channels drains.old).is_open REPORT_CHANNEL ≡ true }
    ensures { Puts result (refusal_line (about subject.now) refusal.now) (D.channels drains.old)
        (D.channels drains.new) }
{
    let words = [
        Word::OfRule(refusal.rule),
        Word::Text(file_name(subject, refusal.place.file)),
        Word::Number(u64::from(refusal.place.offset)),
    ];
    put_line(b"refused", &words, drains)
}

/// Puts which firing trapped.
fn put_trap<D: Drains>(
    inst: InstId,
    action: ActId,
    trap: Trap,
    drains: &mut D,
) -> Result<(), Failed>
    requires { (D.channels drains.old).is_open REPORT_CHANNEL ≡ true }
    ensures { Puts result (trap_line inst.0 action.0 trap) (D.channels drains.old) (D.channels drains.new) }
{
    let words = [
        Word::Number(u64::from(inst.0)),
        Word::Number(u64::from(action.0)),
        Word::Text(trap.name().as_bytes()),
    ];
    put_line(b"trapped", &words, drains)
}

/// Puts which action lacks room, and on which link.
fn put_stall<D: Drains>(
    inst: InstId,
    action: ActId,
    link: LinkId,
    drains: &mut D,
) -> Result<(), Failed>
    requires { (D.channels drains.old).is_open REPORT_CHANNEL ≡ true }
    ensures { Puts result (stall_line inst.0 action.0 link.0) (D.channels drains.old) (D.channels drains.new) }
{
    let words = [
        Word::Number(u64::from(inst.0)),
        Word::Number(u64::from(action.0)),
        Word::Number(u64::from(link.0)),
    ];
    put_line(b"stalled", &words, drains)
}

/// Puts which line is in no run, and why.
fn put_no_run<D: Drains>(number: u64, why: Why, drains: &mut D) -> Result<(), Failed>
    requires { (D.channels drains.old).is_open REPORT_CHANNEL ≡ true }
    ensures { Puts result (no_run_line number why) (D.channels drains.old) (D.channels drains.new) }
{
    let words = [Word::Number(number), Word::Text(why_name(why).as_bytes())];
    put_line(b"not a run", &words, drains)
}

/// Puts for which two actions in which state of an instance the rule of certification fails.
fn put_uncertified<D: Drains>(
    inst: InstId,
    state: u16,
    a: ActId,
    b: ActId,
    reason: Reason,
    drains: &mut D,
) -> Result<(), Failed>
    requires { (D.channels drains.old).is_open REPORT_CHANNEL ≡ true }
    ensures { Puts result (uncertified_line inst.0 state a.0 b.0 reason) (D.channels drains.old)
        (D.channels drains.new) }
{
    let words = [
        Word::Number(u64::from(inst.0)),
        Word::Number(u64::from(state)),
        Word::Number(u64::from(a.0)),
        Word::Number(u64::from(b.0)),
        Word::Text(reason_name(reason).as_bytes()),
    ];
    put_line(b"uncertified", &words, drains)
}

/// How the program is used.
#[tactic(auto, unfolding(crate::specs::Report::usage))]
fn usage() -> &'static [u8]
    ensures { result.now ≡ usage }
{
    b"rvc VERB TOP [PORT=FILE ..] [--trace FILE] [--workers N] [--round P] [--burst N] [--budget N] [--grow N]"
}

/// The name of why a line is in no run.
fn why_name(why: Why) -> &'static str
    ensures { result.now ≡ why_name why }
{
    match why {
        Why::Form => "Form",
        Why::Header => "Header",
        Why::NotExposed => "NotExposed",
        Why::NoRoom => "NoRoom",
        Why::Trap => "Trap",
        Why::End => "End",
        Why::After => "After",
        Why::Cut => "Cut",
        Why::TooLong => "TooLong",
    }
}

/// The name of what an actor lacks that isn't certified.
fn reason_name(reason: Reason) -> &'static str
    ensures { result.now ≡ reason_name reason }
{
    match reason {
        Reason::C1 => "C1",
        Reason::C2 => "C2",
        Reason::C3 => "C3",
        Reason::C4 => "C4",
    }
}
