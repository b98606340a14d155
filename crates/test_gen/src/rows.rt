//! The files and the feed of small networks.

ghost use Rattle.std.specs.Prelude.{◌<◌};

use cal_ast::{Body, Expr, ExprForm};
use cal_lexer::lex;
use cal_parser::parse_file;
use cmd_gen_network::{feed_bytes, network_files, network_text};
use fnl_read::{NetConnection, NetFile, NetInstance, NetPort, read_network};
use rvc_base::{Front, Memory};
use std::alloc::{AllocError, Global};

fn add_port(out: &mut String, port: &NetPort) -> Result<(), AllocError> {
    let way = if port.input { "in" } else { "out" };
    let name = &port.name;
    let kind = &port.shape.name.text;
    write!(out, "{way} {name} {kind}; ")
}

fn add_number(out: &mut String, value: &Expr) -> Result<(), AllocError> {
    match &value.form {
        ExprForm::Number(number) => write!(out, "{number}"),
        _ => out.push_str("?"),
    }
}

fn add_instance(out: &mut String, instance: &NetInstance) -> Result<(), AllocError> {
    let id = &instance.id;
    let class = &instance.class;
    write!(out, "{id} {class}")?;
    for parameter in &instance.parameters {
        let name = &parameter.name;
        write!(out, " {name}=")?;
        add_number(out, &parameter.value)?;
    }
    out.push_str("; ")
}

fn add_connection(out: &mut String, connection: &NetConnection) -> Result<(), AllocError> {
    let src = &connection.src;
    let src_port = &connection.src_port;
    let dst = &connection.dst;
    let dst_port = &connection.dst_port;
    write!(out, "{src}.{src_port}>{dst}.{dst_port}; ")
}

fn outline(alloc: Global, net: &NetFile) -> Result<String, AllocError> {
    let mut out = String::new(alloc);
    let name = &net.name;
    write!(out, "{name}: ")?;
    for port in &net.ports {
        add_port(&mut out, port)?;
    }
    for instance in &net.instances {
        add_instance(&mut out, instance)?;
    }
    for connection in &net.connections {
        add_connection(&mut out, connection)?;
    }
    Ok(out)
}

/// The network of so many instances, as it is read.
fn read(alloc: Global, instances: u32) -> Result<NetFile, Front>
    requires { 0 < instances }
{
    let Ok(text) = network_text(alloc, instances) else {
        return Err(Front::Memory);
    };
    if text.len() > 1_048_576 {
        return Err(Front::Memory);
    }
    read_network(alloc, 1, &text)
}

/// A network in a few words.
fn outline_of(alloc: Global, instances: u32) -> Result<String, AllocError>
    requires { 0 < instances }
{
    match read(alloc, instances) {
        Ok(net) => outline(alloc, &net),
        Err(_) => String::from_str(alloc, "refused"),
    }
}

#[test]
fn networks_are_rows_of_instances(rt: HostRuntime) -> Result<(), AllocError> {
    let one = outline_of(rt.alloc(), 1)?;
    assert!(rt;
        one.as_str() == "Top: in In uint; out Out uint; a0 gen.Add K=0; .In>a0.In; a0.Out>.Out; "
    );
    let three = outline_of(rt.alloc(), 3)?;
    assert!(rt;
        three.as_str()
            == "Top: in In uint; out Out uint; a0 gen.Add K=0; a1 gen.Flip K=1; a2 gen.Add K=2; .In>a0.In; a0.Out>a1.In; a1.Out>a2.In; a2.Out>.Out; "
    );
    Ok(())
}

/// How many instances and connections a network has, if it is read.
fn counts(alloc: Global, instances: u32) -> Option<(usize, usize)>
    requires { 0 < instances }
{
    match read(alloc, instances) {
        Ok(net) => Some((net.instances.len(), net.connections.len())),
        Err(_) => None,
    }
}

#[test]
fn the_greatest_network_is_read(rt: HostRuntime) {
    assert!(rt; counts(rt.alloc(), 1000) == Some((1000, 1001)));
}

/// Whether a source is that of an actor.
fn is_actor(alloc: Global, text: &[u8]) -> Result<bool, Front> {
    if text.len() > 1_048_576 {
        return Ok(false);
    }
    let tokens = lex(alloc, 1, text)?;
    let file = parse_file(alloc, 1, &tokens, text.len() as u32)?;
    match file.body {
        Body::Actor(_) => Ok(true),
        Body::Unit(_) => Ok(false),
    }
}

/// Whether each file but the first is that of an actor, and how many there are.
fn actors(alloc: Global) -> Result<(usize, bool), Memory> {
    let files = network_files(alloc, 2)?;
    let mut all = true;
    for file in files.iter().skip(1) {
        all = all
            && match is_actor(alloc, &file.1) {
                Ok(is) => is,
                Err(_) => false,
            };
    }
    Ok((files.len(), all))
}

#[test]
fn its_classes_are_actors(rt: HostRuntime) -> Result<(), Memory> {
    let (count, all) = actors(rt.alloc())?;
    assert!(rt; count == 3 && all);
    Ok(())
}

/// The number of instances, and the first bytes of the feed.
const FEEDS: &[(u32, [u8; 4])] = &[
    (1, [0xC6, 0x7E, 0x81, 0x6B]),
    (2, [0x8C, 0x21, 0xFF, 0x72]),
    (1000, [0xA2, 0x07, 0x2D, 0xC5]),
];

#[test]
fn feeds_begin_so(rt: HostRuntime) -> Result<(), Memory> {
    for &(instances, first) in FEEDS {
        let bytes = feed_bytes(rt.alloc(), instances)?;
        assert!(rt;
            bytes.len() == 1024 && bytes.starts_with(&first),
            "{instances}"
        );
    }
    Ok(())
}
