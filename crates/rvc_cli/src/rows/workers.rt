//! Rows with more workers than one: they are at work at once, and leave what one leaves.

use crate::rows::decoder::{FILES, output};
use crate::rows::running::{Left, ROOM, hold_told, run_row};
use kit_commands::Row;
use rvc_io::{Gate, OpenGate};
use rvc_top::Status;
use std::alloc::Global;
use std::process::Abort;
use std::sync::atomic::{AtomicU64, Ordering};
use std::thread;
use std::thread::Threads;

/// Holds worker 0 of round 1 until worker 1 of round 1 comes, but not forever.
#[derive(Drop)]
struct Meeting {
    came: AtomicU64,
    met: AtomicU64,
}

/// How often worker 0 looks whether the other one has come.
const TURNS: u32 = 50_000_000;

impl Meeting {
    fn wait(&self) {
        for _turn in 0..TURNS {
            if self.came.load(Ordering::SeqCst) == 1 {
                self.met.store(1, Ordering::SeqCst);
                return;
            }
            thread::yield_now();
        }
    }
}

impl Gate for Meeting {
    fn arrive(&self, round: u64, worker: u32) {
        if round == 1 && worker == 1 {
            self.came.store(1, Ordering::SeqCst);
        }
        if round == 1 && worker == 0 {
            self.wait();
        }
    }
}

/// Two actors run by at least two workers.
const PAIRS: &str = "rvc gen 2 Out=out --trace t --workers 2
rvc gen 2 Out=out --trace t --workers 3
rvc gen 2 Out=out --trace t --workers 64";

/// What each of these rows leaves.
const PAIR_LEFT: &str =
    "instances 2/links 3/certified 2/firings 2048/rounds 18/in In 0 tokens 1024 rest 0/out Out tokens 1024/quiet/ | rvc-trace 1 2 3/i 0 a0 gen.Add/i 1 a1 gen.Flip/r/";

/// Stops unless worker 0 meets worker 1 at the gate, and the row leaves what it should.
fn hold_meeting<R: Abort + Threads + Sync>(rt: &R, alloc: Global, line: &str) {
    let meeting = Meeting {
        came: AtomicU64::new(0),
        met: AtomicU64::new(0),
    };
    let row = Row::of_line(line, "", 4096);
    let left = run_row(rt, alloc, &row, ROOM, &meeting);
    hold_told(rt, alloc, &row, &left, PAIR_LEFT);
    assert!(rt; meeting.met.load(Ordering::SeqCst) == 1, "{line}");
}

#[test]
fn two_workers_are_at_work_at_once(rt: HostRuntime) {
    for line in PAIRS.lines() {
        hold_meeting(&rt, rt.alloc(), line);
    }
}

/// How instances are picked and how often each may fire: words whose trace is the same for each number of workers.
const POLICIES: &str = "--round all --burst 1
--round all --burst 100
--round turn --burst 1
--round turn --burst 100
--round seed:7 --burst 1
--round seed:7 --burst 100";

/// Runs the decoder by so many workers.
fn run_decoder<R: Abort + Threads + Sync>(
    rt: &R,
    alloc: Global,
    policy: &str,
    workers: u32,
) -> Left {
    let line = format!(in alloc;
        "rvc run dec/Top.xdf In=block Out=out --trace t {policy} --workers {workers}"
    );
    let line = line.expect(rt, "a text");
    let row = Row::of_line(line.as_str(), FILES, 4096);
    run_row(rt, alloc, &row, ROOM, &OpenGate)
}

/// Stops unless the decoder leaves this output, by whatever number of workers, and the trace that one worker leaves.
fn hold_policy<R: Abort + Threads + Sync>(rt: &R, alloc: Global, policy: &str, output: &[u8]) {
    let alone = run_decoder(rt, alloc, policy, 1);
    let holds = alone.status == Status::Quiet && alone.drains.held(2) == output;
    assert!(rt; holds, "{policy}");
    for &workers in &[2u32, 3, 64] {
        let shared = run_decoder(rt, alloc, policy, workers);
        let holds = shared.status == Status::Quiet
            && shared.drains.held(2) == output
            && shared.drains.held(1) == alone.drains.held(1);
        assert!(rt; holds, "{policy} {workers}");
    }
}

#[test]
fn a_decoder_sends_the_same_by_each_policy(rt: HostRuntime) {
    let bytes = output(rt.alloc()).expect(&rt, "an output");
    for policy in POLICIES.lines() {
        hold_policy(&rt, rt.alloc(), policy, &bytes);
    }
}

/// A thousand actors and 64 workers. The trace has some eight million bytes.
#[test]
fn a_thousand_actors_are_shared(rt: HostRuntime) {
    let row = Row::of_line("rvc gen 1000 Out=out --trace t --workers 64", "", 65_536);
    let left = run_row(&rt, rt.alloc(), &row, 9_000_000, &OpenGate);
    hold_told(
        &rt,
        rt.alloc(),
        &row,
        &left,
        "instances 1000/links 1001/certified 1000/firings 1024000/rounds 1016/in In 0 tokens 1024 rest 0/out Out tokens 1024/quiet/ | rvc-trace 1 1000 1001/i 0 a0 gen.Add/",
    );
}
