//! Networks in a short text with their links, or the rule that their connections break.
//!
//! A network is a line `INPUTS ; OUTPUTS ; INSTANCES ; CONNECTIONS`, an actor's ports a line `INPUTS ; OUTPUTS`. A port is
//! `name:type` or `name:type:rate`, an instance `id=n1` (a network) or `id=l0` (a leaf), a connection
//! `from.port>to.port` or `from.port>to.port:size`, without the instance for the network's own port. Connection k of a
//! network stands at offset 10 * (k + 1) of its file, which is numbered from 1. A tree that may not be flattened over these
//! ports is answered by `not whole`.

use crate::is_whole;
use fnl_flatten::{Flat, Head, HeadPort, flatten};
use fnl_tree::{Inner, Leaf, Net, NetEnd, Part, Tree, Wire};
use net_model::{End, Link};
use rvc_base::{Front, InstId, Place, Scalar};
use std::alloc::{AllocError, Global};
use std::process::Abort;

fn cut<'a>(text: &'a str, at: &str) -> (&'a str, &'a str) {
    text.split_once(at).unwrap_or((text, ""))
}

fn scalar(text: &str) -> Scalar {
    match text {
        "bool" => Scalar::Bool,
        "i16" => Scalar::Int(16),
        _ => Scalar::Uint(8),
    }
}

fn number(text: &str) -> u32 {
    text.parse().unwrap_or(0)
}

fn ends(alloc: Global, text: &str) -> Result<Vec<NetEnd>, AllocError> {
    let mut ends = Vec::new(alloc);
    for word in text.split_whitespace() {
        let (name, kind) = cut(word, ":");
        ends.push(NetEnd {
            name: String::from_str(alloc, name)?,
            kind: scalar(kind),
        })?;
    }
    Ok(ends)
}

fn head_ports(alloc: Global, text: &str) -> Result<Vec<HeadPort>, AllocError> {
    let mut ports = Vec::new(alloc);
    for word in text.split_whitespace() {
        let (name, rest) = cut(word, ":");
        let (kind, largest) = cut(rest, ":");
        ports.push(HeadPort {
            name: String::from_str(alloc, name)?,
            kind: scalar(kind),
            largest: number(largest),
        })?;
    }
    Ok(ports)
}

fn parts(alloc: Global, text: &str) -> Result<Vec<Part>, AllocError> {
    let mut parts = Vec::new(alloc);
    for word in text.split_whitespace() {
        let (id, inner) = cut(word, "=");
        let (_, net) = cut(inner, "n");
        let (_, leaf) = cut(inner, "l");
        let inner = if leaf.is_empty() {
            Inner::Net(number(net))
        } else {
            Inner::Leaf(InstId(number(leaf)))
        };
        parts.push(Part {
            id: String::from_str(alloc, id)?,
            inner,
        })?;
    }
    Ok(parts)
}

fn end(alloc: Global, text: &str) -> Result<(String, String), AllocError> {
    let (first, second) = cut(text, ".");
    if second.is_empty() {
        return Ok((String::new(alloc), String::from_str(alloc, first)?));
    }
    Ok((
        String::from_str(alloc, first)?,
        String::from_str(alloc, second)?,
    ))
}

fn wires(alloc: Global, text: &str) -> Result<Vec<Wire>, AllocError> {
    let mut wires = Vec::new(alloc);
    let mut at = 0u32;
    for word in text.split_whitespace() {
        at = at.saturating_add(10);
        let (joined, size) = cut(word, ":");
        let (from, to) = cut(joined, ">");
        let (src, src_port) = end(alloc, from)?;
        let (dst, dst_port) = end(alloc, to)?;
        wires.push(Wire {
            src,
            src_port,
            dst,
            dst_port,
            size: number(size),
            at,
        })?;
    }
    Ok(wires)
}

fn net(alloc: Global, file: u32, line: &str) -> Result<Net, AllocError> {
    let (ins, rest) = cut(line, ";");
    let (outs, rest) = cut(rest, ";");
    let (instances, connections) = cut(rest, ";");
    Ok(Net {
        file,
        path: String::new(alloc),
        ins: ends(alloc, ins)?,
        outs: ends(alloc, outs)?,
        parts: parts(alloc, instances)?,
        wires: wires(alloc, connections)?,
    })
}

fn leaf(alloc: Global) -> Result<Leaf, AllocError> {
    let place = Place { file: 1, offset: 0 };
    Ok(Leaf {
        path: String::from_str(alloc, "a")?,
        class: String::from_str(alloc, "A")?,
        class_at: place,
        instance_at: place,
        bindings: Vec::new(alloc),
    })
}

fn add_end(out: &mut String, end: End) -> Result<(), AllocError> {
    match end {
        End::Leaf { inst, port } => {
            let leaf = inst.0;
            write!(out, "{leaf}.{port}")
        }
        End::Net { port } => write!(out, "{port}"),
    }
}

fn add_link(out: &mut String, link: &Link) -> Result<(), AllocError> {
    add_end(out, link.from)?;
    out.push_str(">")?;
    add_end(out, link.to)?;
    let capacity = link.capacity;
    let kind = link.kind;
    write!(out, ":{capacity}:{kind:?} ")
}

/// The links of a network.
fn links_told(alloc: Global, flat: &Flat) -> Result<String, AllocError> {
    let mut out = String::new(alloc);
    for link in &flat.links {
        add_link(&mut out, link)?;
    }
    Ok(out)
}

/// A refusal: the rule, the number of the file and the offset.
fn refusal(alloc: Global, front: Front) -> Result<String, AllocError> {
    match front {
        Front::Refused(refusal) => {
            let rule = refusal.rule;
            let file = refusal.place.file;
            let at = refusal.place.offset;
            format!(in alloc; "{rule} {file} {at}")
        }
        Front::Memory => String::from_str(alloc, "memory"),
    }
}

fn flat(alloc: Global, tree: &Tree, heads: &[Head]) -> Result<String, AllocError> {
    if !is_whole(tree, heads) {
        return String::from_str(alloc, "not whole");
    }
    match flatten(alloc, tree, heads) {
        Ok(flat) => links_told(alloc, &flat),
        Err(front) => refusal(alloc, front),
    }
}

/// The same, but of the links only how many there are.
fn count(alloc: Global, tree: &Tree, heads: &[Head]) -> Result<String, AllocError> {
    if !is_whole(tree, heads) {
        return String::from_str(alloc, "not whole");
    }
    match flatten(alloc, tree, heads) {
        Ok(flat) => {
            let links = flat.links.len();
            format!(in alloc; "{links} links")
        }
        Err(front) => refusal(alloc, front),
    }
}

fn tree(alloc: Global, nets: &[&str], leaves: usize) -> Result<Tree, AllocError> {
    let mut found = Vec::new(alloc);
    let mut file = 0u32;
    for line in nets {
        file = file.saturating_add(1);
        found.push(net(alloc, file, line)?)?;
    }
    let mut actors = Vec::new(alloc);
    for _ in 0..leaves {
        actors.push(leaf(alloc)?)?;
    }
    Ok(Tree {
        nets: found,
        leaves: actors,
    })
}

/// The ports of an actor.
fn head(alloc: Global, line: &str) -> Result<Head, AllocError> {
    let (ins, outs) = cut(line, ";");
    let ins = head_ports(alloc, ins)?;
    let outs = head_ports(alloc, outs)?;
    Ok(Head { ins, outs })
}

fn heads(alloc: Global, lines: &[&str]) -> Result<Vec<Head>, AllocError> {
    let mut found = Vec::new(alloc);
    for line in lines {
        found.push(head(alloc, line)?)?;
    }
    Ok(found)
}

/// Networks, the ports of the actors, and the links or the rule that is broken.
type Row = (
    &'static [&'static str],
    &'static [&'static str],
    &'static str,
);

/// What networks come to.
fn answer(alloc: Global, nets: &[&str], actors: &[&str]) -> Result<String, AllocError> {
    let tree = tree(alloc, nets, actors.len())?;
    let heads = heads(alloc, actors)?;
    flat(alloc, &tree, &heads)
}

fn hold(rt: &impl Abort, alloc: Global, rows: &[Row]) {
    for (nets, actors, expected) in rows {
        let found = answer(alloc, nets, actors).expect(rt, "an answer");
        assert_eq!(rt; found.as_str(), *expected);
    }
}

#[test]
fn networks(rt: HostRuntime) {
    hold(&rt, rt.alloc(), LINKS);
    hold(&rt, rt.alloc(), REFUSALS);
    hold(&rt, rt.alloc(), NOT_WHOLE);
}

const COPY: &str = "In:u8:1 ; Out:u8:1";

const RACE: &str = "In:u8:1 ; Out:u8:1";

const LINKS: &[Row] = &[
    // a network in a network
    (
        &[
            "In:i16 ; Out:u8 ; rl=l0 blk=n1 ; In>rl.In rl.Out>blk.In blk.Out>Out",
            "In:i16 ; Out:u8 ; z=l1 s=l2 ; In>z.In z.Out>s.In s.Out>Out",
        ],
        &[
            "In:i16:2 ; Out:i16:1",
            "In:i16:64 ; Out:i16:64",
            "In:i16:1 ; Out:u8:1",
        ],
        "0>0.0:512:Int(16) 0.0>1.0:512:Int(16) 1.0>2.0:512:Int(16) 2.0>0:512:Uint(8) ",
    ),
    // one output with two readers, and a size that is asked for
    (
        &["In:u8 ; Out:u8 ; c=l0 s=l1 j=l2 ; In>c.In c.Out>s.In c.Out>j.B:1 s.Out>j.A j.Out>Out"],
        &[COPY, "In:u8:2 ; Out:u8:1", "A:u8:1 B:u8:1 ; Out:u8:1"],
        "0>0.0:512:Uint(8) 0.0>1.0:512:Uint(8) 1.0>2.0:512:Uint(8) 0.0>2.1:1:Uint(8) 2.0>0:512:Uint(8) ",
    ),
    // a ring
    (
        &[" ; ; p=l0 q=l1 ; p.Out>q.In q.Out>p.In"],
        &[RACE, RACE],
        "1.0>0.0:512:Uint(8) 0.0>1.0:512:Uint(8) ",
    ),
    // a parameter alone
    (
        &["In:u8 ; Out:u8 ; a=l0 ; In>a.In a.Out>Out"],
        &[COPY],
        "0>0.0:512:Uint(8) 0.0>0:512:Uint(8) ",
    ),
    // three levels, with readers at each, sizes on the way, and an output from the innermost
    (
        &[
            "In:u8 ; Out:u8 ; a=l0 m=n1 ; In>a.In In>m.In:7 m.Out>Out:3",
            "In:u8 ; Out:u8 ; b=l1 n=n2 ; In>b.In In>n.In:9 n.Out>Out:600",
            "In:u8 ; Out:u8 ; c=l2 ; In>c.In:8 c.Out>Out",
        ],
        &[COPY, COPY, COPY],
        "0>0.0:512:Uint(8) 0>1.0:7:Uint(8) 0>2.0:9:Uint(8) 2.0>0:600:Uint(8) ",
    ),
    // a capacity below a rate, a reader's own type, ports without links
    (
        &["In:u8 ; Out:i16 More:u8 ; a=l0 b=l1 ; In>a.In:2 a.Out>b.In b.Out>Out"],
        &[
            "In:i16:5 ; Out:u8:600 ",
            "In:i16:1 No:u8:1 ; Out:u8:1 Too:u8:1",
        ],
        "0>0.0:5:Int(16) 0.0>1.0:600:Int(16) 1.0>0:512:Int(16) ",
    ),
    // no instance
    (&["In:u8 ; Out:u8 ; ;"], &[], ""),
];

const REFUSALS: &[Row] = &[
    (&["In:u8 ; Out:u8 ; a=l0 ; In>Out"], &[COPY], "N7 1 10"),
    (&["In:u8 ; Out:u8 ; a=l0 ; Inn>a.In"], &[COPY], "N5 1 10"),
    (
        &["In:u8 ; Out:u8 ; a=l0 ; In>a.In In>b.In"],
        &[COPY],
        "N5 1 20",
    ),
    (&["In:u8 ; Out:u8 ; a=l0 ; In>a.Out"], &[COPY], "N5 1 10"),
    (&["In:u8 ; Out:u8 ; a=l0 ; a.In>Out"], &[COPY], "N5 1 10"),
    (&["In:u8 ; Out:u8 ; a=l0 ; Out>a.In"], &[COPY], "N5 1 10"),
    (&["In:bool ; Out:u8 ; a=l0 ; In>a.In"], &[COPY], "N6 1 10"),
    (
        &["In:u8 ; Out:bool ; a=l0 ; In>a.In a.Out>Out"],
        &[COPY],
        "N6 1 20",
    ),
    (
        &["In:u8 ; Out:u8 ; a=l0 ; In>a.In a.Out>a.In"],
        &[COPY],
        "N4 1 20",
    ),
    (
        &["In:u8 ; Out:u8 ; a=l0 b=l1 ; a.Out>Out In>a.In b.Out>Out"],
        &[COPY, COPY],
        "N4 1 30",
    ),
    (
        &[
            "In:u8 ; Out:u8 ; m=n1 ; In>m.In m.Out>Out",
            "In:u8 ; Out:u8 ; c=l0 ; In>c.In c.Out>Out c.Out>Out",
        ],
        &[COPY],
        "N4 2 30",
    ),
    (
        &[
            "In:u8 ; Out:u8 ; m=n1 ; In>m.In m.Out>Out",
            "In:u8 ; Out:u8 ; c=l0 ; In>Out",
        ],
        &[COPY],
        "N7 2 10",
    ),
];

/// The connections to actor k of a row: from the one before it, or from the network's inputs.
fn add_wires(line: &mut String, k: u32, size: u32) -> Result<(), AllocError> {
    let last = k.saturating_sub(1);
    for p in 0..4u32 {
        if k == 0 {
            write!(line, "I{p}>a0.I{p}:{size} ")?;
        } else {
            write!(line, "a{last}.O{p}>a{k}.I{p}:{size} ")?;
        }
    }
    Ok(())
}

/// The line of a network in which so many actors stand in a row, with four connections between each two, and more.
fn row_line(alloc: Global, actors: u32, size: u32, more: &str) -> Result<String, AllocError> {
    let mut line = String::from_str(alloc, "I0 I1 I2 I3 ; O0 O1 O2 O3 ; ")?;
    for k in 0..actors {
        write!(line, "a{k}=l{k} ")?;
    }
    line.push_str("; ")?;
    for k in 0..actors {
        add_wires(&mut line, k, size)?;
    }
    line.push_str(more)?;
    Ok(line)
}

/// The ports of so many of them.
fn row_heads(alloc: Global, actors: u32) -> Result<Vec<Head>, AllocError> {
    let mut found = Vec::new(alloc);
    for _ in 0..actors {
        found.push(head(
            alloc,
            "I0:u8:1 I1:u8:1 I2:u8:1 I3:u8:1 ; O0:u8:1 O1:u8:1 O2:u8:1 O3:u8:1",
        )?)?;
    }
    Ok(found)
}

/// What a row of actors comes to.
fn row(alloc: Global, actors: u32, size: u32, more: &str) -> Result<String, AllocError> {
    let line = row_line(alloc, actors, size, more)?;
    let tree = tree(alloc, &[line.as_str()], actors as usize)?;
    let heads = row_heads(alloc, actors)?;
    count(alloc, &tree, &heads)
}

#[test]
fn limits(rt: HostRuntime) {
    for &(actors, size, more, expected) in LIMITS {
        let found = row(rt.alloc(), actors, size, more).expect(&rt, "an answer");
        assert_eq!(rt; found.as_str(), expected);
    }
}

/// How many actors stand in a row, the size that each connection asks for, and one connection more.
const LIMITS: &[(u32, u32, &str, &str)] = &[
    (1000, 0, "", "4000 links"),
    (1024, 0, "", "4096 links"),
    (1024, 0, "a1023.O0>O0", "Z8 1 0"),
    (1025, 0, "", "not whole"),
    (4, 1_048_576, "", "16 links"),
    (5, 1_048_576, "", "Z9 1 0"),
];

const NOT_WHOLE: &[Row] = &[
    // one actor or one network in two places, and one in none
    (&[" ; ; a=l0 b=l0 ;"], &[COPY], "not whole"),
    (&[" ; ; m=n1 n=n1 ;", " ; ; ;"], &[], "not whole"),
    (&[" ; ; a=l0 ;"], &[COPY, COPY], "not whole"),
    (&[" ; ; ;", " ; ; ;"], &[], "not whole"),
    // a network in itself, actors out of order, an actor without ports
    (&[" ; ; m=n0 ;"], &[], "not whole"),
    (&[" ; ; a=l1 b=l0 ;"], &[COPY, COPY], "not whole"),
    (
        &[" ; ; m=n1 b=l0 ;", " ; ; c=l1 ;"],
        &[COPY, COPY],
        "not whole",
    ),
    (&[" ; ; a=l0 ;"], &["In:u8:1 In:u8:1 ; "], "not whole"),
    // names that stand twice, and a size above the limit
    (&["In:u8 In:u8 ; ; ;"], &[], "not whole"),
    (&[" ; ; a=l0 a=l1 ;"], &[COPY, COPY], "not whole"),
    (&["In:u8 ; ; a=l0 ; In>a.In:1048577"], &[COPY], "not whole"),
];
