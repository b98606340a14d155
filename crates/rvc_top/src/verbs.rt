//! A job is handed to its verb.

ghost use Rattle.std.specs.Prelude.{◌≡◌, ◌≢◌, ℕ, false, true, IsSome, List, Some, map, string_bytes};
ghost use Rattle.rvc_base.specs.declared.refusal.Refusal.{Refusal as Denial};
ghost use Rattle.rvc_io.specs.Channels.{WriteFails, WritesOnly};
ghost use Rattle.rvc_io.specs.Count.{HasRisen};
ghost use Rattle.rvc_words.specs.Words.{IsWithin, job_text, port_text};
ghost use Rattle.cal_files.specs.Loading.{Counts, TellsAll};
ghost use Rattle.cal_ast.specs.Tree.{Tree};
ghost use Rattle.cal_model.specs.Selection.{State};
ghost use Rattle.net_model.specs.Network.{Network};
ghost use Rattle.cmd_network.specs.Conforming.{Conforms, ConformsWith, names_of_ports, no_ports};
ghost use Rattle.network_check.specs.Top.{top_asked};
ghost use Rattle.cmd_run_network.specs.Growth.{GrowTooFar};
ghost use Rattle.cmd_network.specs.Answers.{IsAnswered};
ghost use Rattle.cmd_network.specs.Commands.{RefusesJob, command, met_by};
ghost use Rattle.cmd_certify.specs.Ends.{Comes as CertifyComes, IsDecided, IsUndecided};
ghost use Rattle.cmd_check.specs.Ends.{Comes as CheckComes, IsDoneOrOutside};
ghost use Rattle.law_determinate.specs.QuietRuns.{ComesDeterminate};
ghost use Rattle.cmd_fmt.specs.Formatting.{HasFile, IsDoneOrMemory, IsPrinting, IsUnprinted, PrintsFile, library_met};
ghost use Rattle.cmd_fmt.specs.Reports.{IsCutShort, ReportIs, about_file};
ghost use Rattle.cmd_gen.specs.Asked.{ComesAsAsked as GenAsAsked};
ghost use Rattle.cmd_gen.specs.Ends.{ComesFor as GenComesFor};
ghost use Rattle.cmd_gen.specs.Jobs.{GeneratedConform, instances_of};
ghost use Rattle.cmd_replay.specs.Asked.{ComesAsAsked as ReplayAsAsked};
ghost use Rattle.cmd_replay.specs.Ends.{IsJudgedOrOutside, IsNoVerdict};
ghost use Rattle.cmd_replay.specs.Replays.{ConformsToReplay, RefusesReplay};
ghost use Rattle.cmd_run_network.specs.Names.{ChannelsOpened, FeedsOpened};
ghost use Rattle.cmd_run.specs.Asked.{ComesAsAsked};
ghost use Rattle.cmd_run.specs.Rounds.{ComesInFewRounds};
ghost use Rattle.cmd_run.specs.Ends.{ComesFor, IsNoEnd};
ghost use Rattle.rvc_top.specs.Generated.{GenComesDeterminate};
ghost use Rattle.rvc_top.specs.Steps.{IsNoUsage, IsSaid};

use cmd_certify::certify_job;
use cmd_check::check_job;
use cmd_fmt::format_job;
use cmd_gen::gen_job;
use cmd_replay::replay_job;
use cmd_report::Status;
use cmd_run::{run_job, runs_make_few_rounds};
use law_determinate::runs_tell_quiet_runs;
use rvc_io::{Drains, Feeds, Gate, Library};
use rvc_words::{Job, Verb};
use std::alloc::Global;
use std::thread::Threads;

/// Does a job, as its verb does it.
pub(crate) fn do_job<R: Threads + Sync, L: Library, F: Feeds, D: Drains, G: Gate>(
    rt: &R,
    alloc: Global,
    job: &Job,
    library: &mut L,
    feeds: &mut F,
    drains: &mut D,
    gate: &G,
) -> Status
    requires within { IsWithin (job_text job.now) }
    requires number { job.now.verb ≡ Verb.Gen → IsSome (instances_of (string_bytes job.now.top)) }
    requires feeds_closed { (n : ℕ) → (F.feeds feeds.old).is_open n ≡ false }
    requires channels_closed { (n : ℕ) → n ≢ 0 → (D.channels drains.old).is_open n ≡ false }
    requires report_open { (D.channels drains.old).is_open 0 ≡ true }

    ensures run { job.now.verb ≡ Verb.Run
        → IsAnswered (ComesAsAsked (FeedsOpened F.feeds F.past feeds.old feeds.new)
        (ChannelsOpened D.channels D.past drains.old drains.new) (G.arrived gate.now)) (command
        (met_by L.file L.misses L.faults F.feeds D.channels library.old library.new
        feeds.old feeds.new drains.old drains.new) job.now)
        result }
    ensures determinate { job.now.verb ≡ Verb.Run → IsAnswered ComesDeterminate (command
        (met_by L.file L.misses L.faults F.feeds D.channels library.old library.new
        feeds.old feeds.new drains.old drains.new) job.now)
        result }
    ensures few_rounds { job.now.verb ≡ Verb.Run → IsAnswered ComesInFewRounds (command
        (met_by L.file L.misses L.faults F.feeds D.channels library.old library.new
        feeds.old feeds.new drains.old drains.new) job.now)
        result }
    ensures run_complete { (net : Network State) → job.now.verb ≡ Verb.Run
        → TellsAll (L.file library.old)
        → Conforms (L.file library.old) (top_asked (string_bytes job.now.top))
        (map port_text job.now.ports.items) net
        → IsAnswered (ComesFor net) (command
        (met_by L.file L.misses L.faults F.feeds D.channels library.old library.new
        feeds.old feeds.new drains.old drains.new) job.now)
        result }
    ensures run_incomplete { (misses : Counts) (names : List (List ℕ)) (refusal : Denial)
        → job.now.verb ≡ Verb.Run → TellsAll (L.file library.old)
        → RefusesJob names_of_ports (L.file library.old) (top_asked (string_bytes job.now.top))
        (map port_text job.now.ports.items) misses names refusal
        → IsNoEnd result }
    ensures run_too_far { (net : Network State) → job.now.verb ≡ Verb.Run
        → TellsAll (L.file library.old)
        → Conforms (L.file library.old) (top_asked (string_bytes job.now.top))
        (map port_text job.now.ports.items) net
        → GrowTooFar net.links job.now.grow → IsNoEnd result }

    ensures check { job.now.verb ≡ Verb.Check → IsAnswered CheckComes (command
        (met_by L.file L.misses L.faults F.feeds D.channels library.old library.new
        feeds.old feeds.new drains.old drains.new) job.now)
        result }
    ensures check_complete { (net : Network State) → job.now.verb ≡ Verb.Check
        → TellsAll (L.file library.old)
        → ConformsWith no_ports (L.file library.old) (top_asked (string_bytes job.now.top))
        (map port_text job.now.ports.items) net
        → IsDoneOrOutside (D.channels drains.old) (D.channels drains.new) net result }
    ensures check_incomplete { (misses : Counts) (names : List (List ℕ)) (refusal : Denial)
        → job.now.verb ≡ Verb.Check → TellsAll (L.file library.old)
        → RefusesJob no_ports (L.file library.old) (top_asked (string_bytes job.now.top))
        (map port_text job.now.ports.items) misses names refusal
        → result ≢ Status.Done }

    ensures certify { job.now.verb ≡ Verb.Certify → IsAnswered CertifyComes (command
        (met_by L.file L.misses L.faults F.feeds D.channels library.old library.new
        feeds.old feeds.new drains.old drains.new) job.now)
        result }
    ensures certify_complete { (net : Network State) → job.now.verb ≡ Verb.Certify
        → TellsAll (L.file library.old)
        → (conforms : ConformsWith no_ports (L.file library.old)
        (top_asked (string_bytes job.now.top)) (map port_text job.now.ports.items) net)
        → IsDecided conforms.means.means.actors result }
    ensures certify_incomplete { (misses : Counts) (names : List (List ℕ)) (refusal : Denial)
        → job.now.verb ≡ Verb.Certify → TellsAll (L.file library.old)
        → RefusesJob no_ports (L.file library.old) (top_asked (string_bytes job.now.top))
        (map port_text job.now.ports.items) misses names refusal
        → IsUndecided result }

    ensures formatted { job.now.verb ≡ Verb.Fmt → result ≡ Status.Done
        → PrintsFile (L.file library.old (string_bytes job.now.top))
        (map port_text job.now.ports.items) (D.channels drains.old) (D.channels drains.new) }
    ensures format_refused { (refusal : Denial) → job.now.verb ≡ Verb.Fmt
        → result ≡ Status.Refused refusal
        → IsUnprinted (map port_text job.now.ports.items)
        (L.file library.old (string_bytes job.now.top)) (L.misses library.old)
        (L.misses library.new) refusal }
    ensures format_complete { (tree : Tree) → job.now.verb ≡ Verb.Fmt
        → HasFile (L.file library.old (string_bytes job.now.top))
        (map port_text job.now.ports.items) tree
        → (HasRisen (L.faults library.old) (L.faults library.new) → ⊥)
        → (WriteFails D.channels drains.old drains.new → ⊥) → IsDoneOrMemory result }
    ensures format_faults { job.now.verb ≡ Verb.Fmt
        → IsPrinting (L.faults library.old) (L.faults library.new) (D.channels drains.old).faults
        (D.channels drains.new).faults result }
    ensures format_report { job.now.verb ≡ Verb.Fmt
        → ReportIs (about_file (string_bytes job.now.top)) result (D.channels drains.old)
        (D.channels drains.new) }
    ensures format_cut { job.now.verb ≡ Verb.Fmt → result ≡ Status.WriteFault 0
        → IsCutShort (library_met L.file L.misses L.faults library.old library.new)
        (job_text job.now) (D.channels drains.old) (D.channels drains.new) }
    ensures format_alone { job.now.verb ≡ Verb.Fmt → WritesOnly D.channels drains.old drains.new 0 }
    ensures format_opens_no_feed { job.now.verb ≡ Verb.Fmt → feeds.new ≡ feeds.old }

    ensures replay { job.now.verb ≡ Verb.Replay
        → IsAnswered (ReplayAsAsked (FeedsOpened F.feeds F.past feeds.old feeds.new)) (command
        (met_by L.file L.misses L.faults F.feeds D.channels library.old library.new
        feeds.old feeds.new drains.old drains.new) job.now)
        result }
    ensures replay_complete { (net : Network State) → job.now.verb ≡ Verb.Replay
        → TellsAll (L.file library.old)
        → ConformsToReplay (L.file library.old) (top_asked (string_bytes job.now.top))
        (map port_text job.now.ports.items) job.now.grow net
        → IsJudgedOrOutside (command
        (met_by L.file L.misses L.faults F.feeds D.channels library.old library.new
        feeds.old feeds.new drains.old drains.new) job.now)
        net result }
    ensures replay_incomplete { (misses : Counts) (names : List (List ℕ)) (refusal : Denial)
        → job.now.verb ≡ Verb.Replay → TellsAll (L.file library.old)
        → RefusesReplay (L.file library.old) (top_asked (string_bytes job.now.top))
        (map port_text job.now.ports.items) job.now.grow misses names refusal
        → IsNoVerdict result }

    ensures generated { job.now.verb ≡ Verb.Gen
        → IsAnswered (GenAsAsked (ChannelsOpened D.channels D.past drains.old drains.new)
        (G.arrived gate.now)) (command
        (met_by L.file L.misses L.faults F.feeds D.channels library.old library.new
        feeds.old feeds.new drains.old drains.new) job.now)
        result }
    ensures gen_determinate { job.now.verb ≡ Verb.Gen → IsAnswered GenComesDeterminate (command
        (met_by L.file L.misses L.faults F.feeds D.channels library.old library.new
        feeds.old feeds.new drains.old drains.new) job.now)
        result }
    ensures gen_complete { (instances : ℕ) (net : Network State) → job.now.verb ≡ Verb.Gen
        → instances_of (string_bytes job.now.top) ≡ Some instances
        → GeneratedConform instances (map port_text job.now.ports.items) net
        → IsAnswered (GenComesFor net) (command
        (met_by L.file L.misses L.faults F.feeds D.channels library.old library.new
        feeds.old feeds.new drains.old drains.new) job.now)
        result }
    ensures gen_reads_no_file { job.now.verb ≡ Verb.Gen → library.new ≡ library.old }
    ensures gen_opens_no_feed { job.now.verb ≡ Verb.Gen → feeds.new ≡ feeds.old }

    ensures said { IsSaid (L.faults library.old) (L.faults library.new) (F.feeds feeds.old).faults
        (F.feeds feeds.new).faults (D.channels drains.old) (D.channels drains.new) result }
    ensures no_usage { IsNoUsage result }
{
    runs_tell_quiet_runs();
    runs_make_few_rounds();
    match job.verb {
        Verb::Run => run_job(rt, alloc, job, library, feeds, drains, gate),
        Verb::Check => check_job(alloc, job, library, drains),
        Verb::Certify => certify_job(alloc, job, library, drains),
        Verb::Fmt => format_job(alloc, job, library, drains),
        Verb::Replay => replay_job(alloc, job, library, feeds, drains),
        Verb::Gen => gen_job(rt, alloc, job, drains, gate),
    }
}
