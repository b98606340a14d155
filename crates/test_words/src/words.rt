//! Lines of words with what they ask for, or the cause why they ask for nothing.

use rvc_words::{Job, PortWord, WordFault, read_words};
use std::alloc::{AllocError, Global};
use std::process::Abort;

/// The name and the file of each port word.
fn ports_text(alloc: Global, ports: &[PortWord]) -> Result<String, AllocError> {
    let mut text = String::new(alloc);
    for port in ports {
        text.push_str(" [")?;
        text.push_str(&port.name)?;
        text.push_str(" ")?;
        text.push_str(&port.file)?;
        text.push_str("]")?;
    }
    Ok(text)
}

/// What a job says.
fn job_text(alloc: Global, job: &Job) -> Result<String, AllocError> {
    let ports = ports_text(alloc, &job.ports)?;
    format!(in alloc;
        "{:?} {}{ports} ({}) {} {:?} {} {} {}",
        job.verb, job.top, job.trace, job.workers, job.round, job.burst, job.budget, job.grow
    )
}

/// What words ask for, or the cause why they ask for nothing.
fn asked(alloc: Global, words: &[String]) -> Result<String, AllocError> {
    match read_words(alloc, words) {
        Ok(job) => job_text(alloc, &job),
        Err(WordFault::Usage(cause)) => String::from_str(alloc, cause.name()),
        Err(WordFault::Memory) => String::from_str(alloc, "out of memory"),
    }
}

/// The words of a line, which one blank each parts.
fn words(alloc: Global, line: &str) -> Result<Vec<String>, AllocError> {
    let mut words = Vec::new(alloc);
    for word in line.split(' ') {
        words.push(String::from_str(alloc, word)?)?;
    }
    Ok(words)
}

/// Stops unless a line has its answer.
fn hold_row(rt: &impl Abort, alloc: Global, row: &str) {
    let (line, expected) = row.split_once(" = ").unwrap_or((row, ""));
    let words = words(alloc, line).expect(rt, "words");
    let found = asked(alloc, &words).expect(rt, "a text");
    assert!(rt; found.as_str() == expected, "{line}: {found}");
}

/// Stops at the first line that has another answer.
fn hold(rt: &impl Abort, alloc: Global, table: &str) {
    for row in table.lines() {
        hold_row(rt, alloc, row);
    }
}

#[test]
fn jobs(rt: HostRuntime) {
    hold(&rt, rt.alloc(), JOBS);
}

/// Lines with their jobs: the verb, the top, the ports, the trace, the workers, the round, the burst, the budget and
/// the growth.
const JOBS: &str =
    "rvc run Inc.cal In=a=b.bin Out=o.bin --trace t.txt = Run Inc.cal [In a=b.bin] [Out o.bin] (t.txt) 1 All 64 100000000 0
rvc --workers=64 replay --round seed:18446744073709551615 a/_b/C.xdf A=x --burst 65536 B=y --trace=t --budget 00000000000000000001 C=z --grow 1048576 = Replay a/_b/C.xdf [A x] [B y] [C z] (t) 64 Seed(18446744073709551615) 65536 1 1048576
rvc check A.xdf = Check A.xdf () 1 All 64 100000000 0
rvc certify A.cal --round turn --grow=1 = Certify A.cal () 1 Turn 64 100000000 1
rvc fmt a/b/A1.cal = Fmt a/b/A1.cal () 1 All 64 100000000 0
rvc gen 1000 --trace t --budget 1000000000000 = Gen 1000 (t) 1 All 64 1000000000000 0";

#[test]
fn usage(rt: HostRuntime) {
    hold(&rt, rt.alloc(), USAGE);
}

/// Lines that ask for nothing, with the cause that the program prints. The first one is empty.
const USAGE: &str = " = words
rvc = words
rvc run = words
rvc run A.cal --help = words
rvc -h = words
rvc --version = words
rvc run A.cal --trace = words
rvc run A.cal --trace t --trace u = words
rvc run A.cal --trace t --worker 2 = words
rvc run A.cal --trace t --budget -1 = words
rvc run A.cal --trace t --grow 1 --grow 1 = words
rvc go A.txt x --nothing = words
rvc go Inc.cal = verb
rvc Run Inc.cal = verb
rvc help Inc.txt --workers 0 = verb
rvc run Inc.txt --trace t = top
rvc run Inc --trace t = top
rvc run .cal --trace t = top
rvc run a//A.cal --trace t = top
rvc run /A.cal --trace t = top
rvc run ../A.cal --trace t = top
rvc run A.cal.cal --trace t = top
rvc run action.cal --trace t = top
rvc run endif/A.cal --trace t = top
rvc run 1A.cal --trace t = top
rvc run A-B.cal --trace t = top
rvc fmt A.xdf = top
rvc gen A.cal --trace t = top
rvc gen 0 --trace t = top
rvc gen 1001 --trace t = top
rvc check 1 --workers 0 --round x A = top
rvc run Inc.cal --workers 65 --trace t = number
rvc run Inc.cal --workers 0 --trace t = number
rvc run Inc.cal --burst 0 --trace t = number
rvc run Inc.cal --burst 65537 --trace t = number
rvc run Inc.cal --budget 0 --trace t = number
rvc run Inc.cal --budget 1000000000001 --trace t = number
rvc run Inc.cal --budget= --trace t = number
rvc run Inc.cal --budget=-1 --trace t = number
rvc run Inc.cal --budget +1 --trace t = number
rvc run Inc.cal --budget 000000000000000000001 --trace t = number
rvc run Inc.cal --budget 99999999999999999999 --trace t = number
rvc run Inc.cal --grow 0 --trace t = number
rvc run Inc.cal --grow 1048577 --trace t = number
rvc fmt Inc.cal --workers x --round x A = number
rvc fmt Inc.cal --grow x --round x A = number
rvc run Inc.cal --round none --trace t = round
rvc run Inc.cal --round seed --trace t = round
rvc run Inc.cal --round seed: --trace t = round
rvc run Inc.cal --round seed:18446744073709551616 --trace t = round
rvc run Inc.cal --round seed:1:2 --trace t = round
rvc run Inc.cal --round Seed:1 In = round
rvc run Inc.cal In --trace t = port
rvc run Inc.cal In= --trace t = port
rvc run Inc.cal =in --trace t = port
rvc run Inc.cal In=in Out = port
rvc -- run Inc.cal --trace t = port
rvc run Inc.cal = trace
rvc run Inc.cal --trace= = trace
rvc replay Inc.cal = trace
rvc gen 1 = trace";
