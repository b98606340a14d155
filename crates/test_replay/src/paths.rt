//! The names of the instances of small networks.

use kit_runs::Net;
use rvc_base::Memory;
use std::alloc::Global;

/// The path and the class of each instance of the networks whose traces are replayed here.
fn paths(named: Net) -> &'static [&'static str] {
    match named {
        Net::Inc | Net::TwoBytes => &["Inc Inc"],
        Net::Div => &["Div Div"],
        Net::Countdown => &["d Countdown"],
        Net::Ring => &["p Race", "q Race"],
        Net::Pair => &["c Copy", "s Sum", "j Join"],
        Net::Beside | Net::Short | Net::Behind => &["c Copy", "s Sum", "j Join", "r Race"],
        Net::Late => &["c Copy", "s Sum", "j Join", "l Late"],
        _ => &[],
    }
}

/// The names of the instances.
pub(crate) fn names(alloc: Global, named: Net) -> Result<Vec<String>, Memory> {
    let mut names = Vec::new(alloc);
    for &path in paths(named) {
        names.push(String::from_str(alloc, path)?)?;
    }
    Ok(names)
}
