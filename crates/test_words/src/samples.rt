//! Networks of which reports speak, and the numbers of their runs.

use net_model::{Counts, End, Link, Port};
use rvc_base::{InstId, Memory, Scalar};
use rvc_words::PortWord;
use std::alloc::Global;

/// A link: an instance and its output, and an instance and its input.
type Row = ((u32, u32), (u32, u32));

/// In place of an instance: the network.
const NET: u32 = u32::MAX;

/// A network, and the numbers of a run of it.
#[derive(Clone, Copy)]
pub(crate) struct Sample {
    pub instances: u64,
    pub links: &'static [Row],
    pub ins: &'static [&'static str],
    pub outs: &'static [&'static str],
    pub firings: u64,
    pub rounds: u64,
    pub arrived: &'static [u64],
    pub rests: &'static [u8],
    pub sent: &'static [u64],
}

const ONE: &[Row] = &[((NET, 0), (0, 0)), ((0, 0), (NET, 0))];

const CHAIN: &[Row] = &[
    ((NET, 0), (0, 0)),
    ((0, 0), (1, 0)),
    ((1, 0), (2, 0)),
    ((2, 0), (NET, 0)),
];

const PAIR: &[Row] = &[
    ((NET, 0), (0, 0)),
    ((0, 0), (1, 0)),
    ((1, 0), (2, 0)),
    ((0, 0), (2, 1)),
    ((2, 0), (NET, 0)),
];

const FORK: &[Row] = &[
    ((NET, 1), (0, 0)),
    ((0, 0), (1, 0)),
    ((NET, 0), (1, 1)),
    ((NET, 1), (1, 2)),
    ((1, 0), (NET, 0)),
    ((0, 0), (NET, 1)),
];

/// One actor that adds one, over three tokens.
pub(crate) const INC: Sample = Sample {
    instances: 1,
    links: ONE,
    ins: &["In"],
    outs: &["Out"],
    firings: 3,
    rounds: 2,
    arrived: &[3, 0],
    rests: &[0, 0],
    sent: &[3],
};

/// The same over no tokens.
pub(crate) const NONE: Sample = Sample {
    instances: 1,
    links: ONE,
    ins: &["In"],
    outs: &["Out"],
    firings: 0,
    rounds: 1,
    arrived: &[0, 0],
    rests: &[0, 0],
    sent: &[0],
};

/// One actor with a schedule, over five tokens.
pub(crate) const FSM: Sample = Sample {
    instances: 1,
    links: ONE,
    ins: &["In"],
    outs: &["Out"],
    firings: 5,
    rounds: 2,
    arrived: &[5, 0],
    rests: &[0, 0],
    sent: &[5],
};

/// One actor that divides, which ends in a trap.
pub(crate) const DIV: Sample = Sample {
    instances: 1,
    links: ONE,
    ins: &["In"],
    outs: &["Out"],
    firings: 1,
    rounds: 1,
    arrived: &[6, 0],
    rests: &[0, 0],
    sent: &[1],
};

/// One actor over tokens of two bytes, with a byte left.
pub(crate) const WIDE: Sample = Sample {
    instances: 1,
    links: ONE,
    ins: &["In"],
    outs: &["Out"],
    firings: 1,
    rounds: 2,
    arrived: &[1, 0],
    rests: &[1, 0],
    sent: &[1],
};

/// Three actors in a chain, which make a block of tokens.
pub(crate) const BLOCKS: Sample = Sample {
    instances: 3,
    links: CHAIN,
    ins: &["In"],
    outs: &["Out"],
    firings: 133,
    rounds: 5,
    arrived: &[8, 0, 0, 0],
    rests: &[0, 0, 0, 0],
    sent: &[64],
};

/// Two ways of different length meet, one of which holds one token.
pub(crate) const MEET: Sample = Sample {
    instances: 3,
    links: PAIR,
    ins: &["In"],
    outs: &["Out"],
    firings: 1,
    rounds: 2,
    arrived: &[4, 0, 0, 0, 0],
    rests: &[0, 0, 0, 0, 0],
    sent: &[0],
};

/// Three input links, of which two begin at one input, among other links.
pub(crate) const INPUTS: Sample = Sample {
    instances: 2,
    links: FORK,
    ins: &["A", "B"],
    outs: &["X", "Y"],
    firings: 18446744073709551615,
    rounds: 10,
    arrived: &[7, 0, 20, 300, 0, 0],
    rests: &[1, 0, 0, 3, 0, 0],
    sent: &[0, 12],
};

/// What owns the parts of which a report speaks.
#[derive(Drop)]
pub(crate) struct Parts {
    pub files: Vec<String>,
    pub words: Vec<PortWord>,
    pub links: Vec<Link>,
    pub ins: Vec<Port>,
    pub outs: Vec<Port>,
    pub counts: Counts,
}

fn end(inst: u32, port: u32) -> End {
    if inst == NET {
        End::Net { port }
    } else {
        End::Leaf {
            inst: InstId(inst),
            port,
        }
    }
}

fn links(alloc: Global, rows: &[Row]) -> Result<Vec<Link>, Memory> {
    let mut links = Vec::new(alloc);
    for &(from, to) in rows {
        links.push(Link {
            from: end(from.0, from.1),
            to: end(to.0, to.1),
            capacity: 512,
            kind: Scalar::Uint(8),
        })?;
    }
    Ok(links)
}

fn ports(alloc: Global, names: &[&str]) -> Result<Vec<Port>, Memory> {
    let mut ports = Vec::new(alloc);
    for name in names {
        ports.push(Port {
            name: String::from_str(alloc, name)?,
            kind: Scalar::Uint(8),
        })?;
    }
    Ok(ports)
}

fn texts(alloc: Global, names: &[&str]) -> Result<Vec<String>, Memory> {
    let mut texts = Vec::new(alloc);
    for name in names {
        texts.push(String::from_str(alloc, name)?)?;
    }
    Ok(texts)
}

/// Words that give ports these files.
fn words(alloc: Global, given: &[(&str, &str)]) -> Result<Vec<PortWord>, Memory> {
    let mut words = Vec::new(alloc);
    for (name, file) in given {
        words.push(PortWord {
            name: String::from_str(alloc, name)?,
            file: String::from_str(alloc, file)?,
        })?;
    }
    Ok(words)
}

fn counts(alloc: Global, sample: &Sample) -> Result<Counts, Memory> {
    Ok(Counts {
        firings: sample.firings,
        rounds: sample.rounds,
        arrived: Vec::from_slice(alloc, sample.arrived)?,
        rests: Vec::from_slice(alloc, sample.rests)?,
        sent: Vec::from_slice(alloc, sample.sent)?,
    })
}

/// The parts of a sample, whose inputs have the files `a` and `b`, or `in` for the one input, and two files by number.
pub(crate) fn parts_of(alloc: Global, sample: &Sample) -> Result<Parts, Memory> {
    Ok(Parts {
        files: texts(alloc, &["Amb.cal", "p/Lib.cal"])?,
        words: words(
            alloc,
            &[("Out", "out"), ("B", "b"), ("In", "in"), ("A", "a")],
        )?,
        links: links(alloc, sample.links)?,
        ins: ports(alloc, sample.ins)?,
        outs: ports(alloc, sample.outs)?,
        counts: counts(alloc, sample)?,
    })
}
