//! Networks at their limits, and one past them. Offsets are found in the text that was made.

use crate::rows::same;
use kit_networks::{Told, answer, cut};
use std::alloc::{AllocError, Global};
use std::process::Abort;

fn number(text: &str) -> u32 {
    text.parse().unwrap_or(0)
}

fn add_ports(text: &mut String, kind: &str, count: u32) -> Result<(), AllocError> {
    for k in 0..count {
        write!(
            text,
            "<Port kind='{kind}' name='p{kind}{k}'><Type name='bool'/></Port>"
        )?;
    }
    Ok(())
}

fn add_instances(text: &mut String, class: &str, count: u32) -> Result<(), AllocError> {
    for k in 0..count {
        write!(
            text,
            "<Instance id='{class}{k}'><Class name='{class}'/></Instance>"
        )?;
    }
    Ok(())
}

/// A connection from the network's input to each of the four inputs of so many instances, with an attribute.
fn add_connections(text: &mut String, instances: u32, size: &str) -> Result<(), AllocError> {
    for k in 0..instances {
        for i in 0..4u32 {
            write!(
                text,
                "<Connection src='' src-port='In' dst='A{k}' dst-port='I{i}'>{size}</Connection>"
            )?;
        }
    }
    Ok(())
}

/// A part of a network: `inputs:N`, `outputs:N`, `N:CLASS` for so many instances, `connections:N` and `sized:N` for those to
/// so many instances, without a size and with the largest, and `in` and `out` for a port with a connection.
fn add_part(text: &mut String, part: &str) -> Result<(), AllocError> {
    let (kind, more) = cut(part, ":");
    match kind {
        "inputs" => add_ports(text, "Input", number(more)),
        "outputs" => add_ports(text, "Output", number(more)),
        "connections" => add_connections(text, number(more), ""),
        "sized" => add_connections(text, number(more), MOST),
        "in" => text.push_str(INPUT),
        "out" => text.push_str(OUTPUT),
        count => add_instances(text, more, number(count)),
    }
}

/// The text of a network of these parts.
fn text_of(alloc: Global, parts: &str) -> Result<String, AllocError> {
    let mut text = String::from_str(alloc, "<XDF name='T'>")?;
    for part in parts.split_whitespace() {
        add_part(&mut text, part)?;
    }
    text.push_str("</XDF>")?;
    Ok(text)
}

/// The place of the last instance of a text.
fn last_instance(text: &str) -> usize {
    text.rfind("<Instance").unwrap_or(0)
}

/// What a network of this text comes to.
fn answer_of(alloc: Global, text: &str) -> Result<String, AllocError> {
    let nets = format!(in alloc; "T {text}\nnet {TWO}")?;
    answer(alloc, Told::Whole, nets.as_str(), FOUR)
}

/// The answer as it is, or its kind with the place at which it is to be.
fn in_words(alloc: Global, text: &str, found: &str) -> Result<String, AllocError> {
    let last = last_instance(text);
    let passing = format!(in alloc; "Z7 1 {last}")?;
    if found == passing.as_str() {
        return String::from_str(alloc, "Z7 at the last instance");
    }
    if found.len() > 20 {
        return String::from_str(alloc, "whole");
    }
    String::from_str(alloc, found)
}

/// What is looked at.
fn found(alloc: Global, parts: &str) -> Result<String, AllocError> {
    let text = text_of(alloc, parts)?;
    let found = answer_of(alloc, text.as_str())?;
    in_words(alloc, text.as_str(), found.as_str())
}

fn hold_row(rt: &impl Abort, alloc: Global, row: &str) {
    let (parts, expected) = cut(row, " = ");
    let found = found(alloc, parts).expect(rt, "a text");
    same(rt, found.as_str(), expected);
}

const INPUT: &str = "<Port kind='Input' name='In'><Type name='bool'/></Port>";

const OUTPUT: &str =
    "<Port kind='Output' name='Out'><Type name='bool'/></Port><Connection src='A0' src-port='O' dst='' dst-port='Out'/>";

const MOST: &str =
    "<Attribute name='bufferSize'><Expr kind='Literal' literal-kind='Integer' value='1048576'/></Attribute>";

/// A network of two actors.
const TWO: &str =
    "M <XDF name='M'><Instance id='a'><Class name='A'/></Instance><Instance id='b'><Class name='A'/></Instance></XDF>";

const FOUR: &str = "A I0:bool I1:bool I2:bool I3:bool ; O:bool";

#[test]
fn limits(rt: HostRuntime) {
    for row in LIMITS.lines() {
        hold_row(&rt, rt.alloc(), row);
    }
}

/// Ports of a direction; instances, each of which counts before those inside it; links; and capacities.
const LIMITS: &str = "inputs:32 outputs:32 = whole
inputs:33 = Z3 1 0
outputs:33 = Z3 1 0
1024:A = whole
1025:A = Z7 at the last instance
341:M 1:A = whole
341:M 2:A = Z7 at the last instance
1:A 341:M = whole
2:A 341:M = Z7 2 59
in 1024:A connections:1024 = whole
in 1024:A connections:1024 out = Z8 1 0
in 4:A sized:4 = whole
in 4:A sized:4 out = Z9 1 0";
