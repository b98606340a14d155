//! Reports of commands that ran a network, or tried to.

ghost use Rattle.std.specs.Prelude.{◌≡◌, true};
ghost use Rattle.cmd_report.specs.About.{about};
ghost use Rattle.cmd_report.specs.Report.{report};
ghost use Rattle.cmd_network.specs.Steps.{IsPut};
ghost use Rattle.cmd_run.specs.Steps.{about_image, lines_at, status_of};

use crate::status::status_of;
use cal_files::Names;
use cmd_network::{answered, count_none};
use cmd_report::{REPORT_CHANNEL, Status, Subject, report_end, report_run};
use cmd_run_network::{JobFault, Outcome};
use rvc_engine::Image;
use rvc_io::Drains;
use rvc_words::Job;

/// What the report speaks of, with an image.
fn image_subject<'a>(image: &'a Image, names: &'a Names, job: &'a Job) -> Subject<'a>
    ensures { about result ≡ about_image image.entry.now names.entry.now job.entry.now }
{
    Subject {
        files: names.files.as_slice(),
        trace: job.trace.as_str(),
        words: job.ports.as_slice(),
        instances: image.codes.len() as u64,
        links: image.flat.links.as_slice(),
        ins: image.flat.ins.as_slice(),
        outs: image.flat.outs.as_slice(),
    }
}

/// Puts the report of a run, or of what kept its rounds from going, and gives the status.
pub(crate) fn report_came<D: Drains>(
    image: &Image,
    names: &Names,
    job: &Job,
    came: Result<Outcome, JobFault>,
    drains: &mut D,
) -> Status
    requires { (D.channels drains.old).is_open REPORT_CHANNEL ≡ true }
    ensures { IsPut (status_of came) (report (lines_at image.now names.now job.now came)
        (about_image image.now names.now job.now) (status_of came)) (D.channels drains.old)
        (D.channels drains.new) result }
{
    let said = status_of(&came);
    let subject = image_subject(image, names, job);
    let put = match &came {
        Ok(outcome) => report_run(
            &said,
            &subject,
            Some(count_none(image.uncertified.as_slice())),
            &outcome.counts,
            drains,
        ),
        Err(_) => report_end(&said, &subject, drains),
    };
    answered(said, put)
}
