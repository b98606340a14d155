//! Files are checked, and port words refused.

ghost use Rattle.std.specs.Prelude.{◌≡◌, ◌≤◌, ℕ, true, List, string_bytes};
ghost use Rattle.rvc_io.specs.Feeds.{Inputs};
ghost use Rattle.rvc_io.specs.Told.{Told};
ghost use Rattle.cal_files.specs.Loading.{Counts};
ghost use Rattle.cal_files.specs.Views.{file_names};
ghost use Rattle.network_check.specs.Checked.{IsChecked};
ghost use Rattle.network_check.specs.Top.{top_asked};
ghost use Rattle.cmd_network.specs.Answers.{IsAnswered};
ghost use Rattle.cmd_network.specs.Commands.{command, met_by};
ghost use Rattle.cmd_check.specs.Ends.{Comes};

use crate::reporting::report_checked;
use cal_files::Names;
use cmd_network::{report_unbuilt, status_of_build};
use cmd_ports::match_words;
use cmd_report::{REPORT_CHANNEL, Status};
use network_check::{Checked, check_network};
use rvc_io::{Drains, Library};
use rvc_words::Job;
use std::alloc::Global;

/// Checks a job, without what a library that tells of each name decides.
pub(crate) fn check_files<L: Library, D: Drains>(
    alloc: Global,
    job: &Job,
    library: &mut L,
    drains: &mut D,
) -> Status
    requires open { (D.channels drains.old).is_open REPORT_CHANNEL ≡ true }
    ensures answered { (feeds : Inputs) → IsAnswered Comes
        (command (met_by L.file L.misses L.faults (λ seen. seen) D.channels library.old library.new
        feeds feeds drains.old drains.new) job.now) result }
    ensures same_files { (other : List ℕ) → L.file library.new other ≡ L.file library.old other }
    ensures faults_stay { L.faults library.old ≤ L.faults library.new }
    ensures misses_stay { L.misses library.old ≤ L.misses library.new }
{
    let mut names = Names::new(alloc);
    match check_network(alloc, library, job.top.as_str(), &mut names) {
        Ok(checked) => end_of(&checked, &names, job, drains),
        Err(fault) => report_unbuilt(status_of_build(fault), &names, job, drains),
    }
}

/// Refuses the port words of a job whose network was checked, if there are any, for no port is opened; and puts the report.
fn end_of<D: Drains>(checked: &Checked, names: &Names, job: &Job, drains: &mut D) -> Status
    requires { (D.channels drains.old).is_open REPORT_CHANNEL ≡ true }
    ensures { (library : List ℕ → Told) (misses faults : Counts) (feeds : Inputs)
        → IsChecked library (top_asked (string_bytes job.now.top)) (file_names names.now) checked.now
        → IsAnswered Comes (record {
          job = job.now;
          library = library;
          misses = misses;
          faults = faults;
          feeds = feeds;
          feeds_after = feeds;
          channels = D.channels drains.old;
          channels_after = D.channels drains.new;
        }) result }
{
    match match_words(job.ports.as_slice(), &[], &[]) {
        Ok(()) => report_checked(checked, names, job, drains),
        Err(refusal) => report_unbuilt(Status::Refused(refusal), names, job, drains),
    }
}
