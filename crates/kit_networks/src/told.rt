//! Networks and refusals in a few words.

use cal_model::{Value, Values};
use fnl_flatten::Flat;
use fnl_tree::{Leaf, LeafValue};
use net_model::{End, Link, Port};
use rvc_base::Front;
use std::alloc::{AllocError, Global};

/// Adds a value; a list inside a list is `..`.
fn add_value(out: &mut String, value: &Value) -> Result<(), AllocError> {
    match value {
        Value::List(values) => add_list(out, values),
        other => add_single(out, other),
    }
}

fn add_single(out: &mut String, value: &Value) -> Result<(), AllocError> {
    match value {
        Value::Num(number) => write!(out, "{number}"),
        Value::Bool(truth) => write!(out, "{truth}"),
        Value::List(_) => out.push_str(".."),
    }
}

fn add_list(out: &mut String, values: &Values) -> Result<(), AllocError> {
    out.push_str("[ ")?;
    for item in &values.items {
        add_single(out, item)?;
        out.push_str(" ")?;
    }
    out.push_str("]")
}

fn add_given(out: &mut String, given: &LeafValue) -> Result<(), AllocError> {
    let name = &given.name;
    write!(out, "{name}=")?;
    add_value(out, &given.value)?;
    out.push_str(" ")
}

/// Adds an actor's path and class, and what is given to it.
fn add_leaf(out: &mut String, leaf: &Leaf) -> Result<(), AllocError> {
    let path = &leaf.path;
    let class = &leaf.class;
    write!(out, "{path}:{class} ")?;
    for given in &leaf.bindings {
        add_given(out, given)?;
    }
    Ok(())
}

fn add_ports(out: &mut String, ports: &[Port]) -> Result<(), AllocError> {
    for port in ports {
        let name = &port.name;
        let kind = port.kind;
        write!(out, "{name}:{kind:?} ")?;
    }
    Ok(())
}

fn add_end(out: &mut String, end: End) -> Result<(), AllocError> {
    match end {
        End::Leaf { inst, port } => {
            let leaf = inst.0;
            write!(out, "{leaf}.{port}")
        }
        End::Net { port } => write!(out, "{port}"),
    }
}

fn add_link(out: &mut String, link: &Link) -> Result<(), AllocError> {
    add_end(out, link.from)?;
    out.push_str(">")?;
    add_end(out, link.to)?;
    let capacity = link.capacity;
    let kind = link.kind;
    write!(out, ":{capacity}:{kind:?} ")
}

/// A network: its actors, its inputs, its outputs and its links, with `; ` between.
fn network(alloc: Global, leaves: &[Leaf], flat: &Flat) -> Result<String, AllocError> {
    let mut out = String::new(alloc);
    for leaf in leaves {
        add_leaf(&mut out, leaf)?;
    }
    out.push_str("; ")?;
    add_ports(&mut out, &flat.ins)?;
    out.push_str("; ")?;
    add_ports(&mut out, &flat.outs)?;
    out.push_str("; ")?;
    for link in &flat.links {
        add_link(&mut out, link)?;
    }
    Ok(out)
}

/// How a network is told.
#[derive(Clone, Copy)]
pub enum Told {
    Whole,
    Outline,
}

/// A network in outline: the paths and classes of its actors, and how many links there are.
fn in_outline(alloc: Global, leaves: &[Leaf], flat: &Flat) -> Result<String, AllocError> {
    let mut out = String::new(alloc);
    for leaf in leaves {
        let path = &leaf.path;
        let class = &leaf.class;
        write!(out, "{path}:{class} ")?;
    }
    let links = flat.links.len();
    write!(out, "{links}")?;
    Ok(out)
}

/// A refusal: the rule, the number of the file and the offset.
pub(crate) fn refusal(alloc: Global, front: Front) -> Result<String, AllocError> {
    match front {
        Front::Refused(refusal) => {
            let rule = refusal.rule;
            let file = refusal.place.file;
            let at = refusal.place.offset;
            format!(in alloc; "{rule} {file} {at}")
        }
        Front::Memory => String::from_str(alloc, "memory"),
    }
}

/// What flattening came to.
pub(crate) fn flattened(
    alloc: Global,
    told: Told,
    leaves: &[Leaf],
    found: Result<Flat, Front>,
) -> Result<String, AllocError> {
    match found {
        Ok(flat) => match told {
            Told::Whole => network(alloc, leaves, &flat),
            Told::Outline => in_outline(alloc, leaves, &flat),
        },
        Err(front) => refusal(alloc, front),
    }
}
