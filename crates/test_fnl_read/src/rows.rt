//! Texts with the networks that they spell, or the rule that they break first.

use cal_ast::{Expr, TypeExpr};
use fnl_read::{NetConnection, NetDecl, NetFile, NetInstance, NetPort, read_network};
use kit_trees::expr_text;
use rvc_base::{Front, Memory};
use std::alloc::{AllocError, Global};
use std::process::Abort;

/// What is asked of a text.
#[derive(Clone, Copy)]
enum Asked {
    /// Its network in a few words, or the rule that it breaks.
    Outline,
    /// The value of the first parameter of its first instance.
    Value,
}

fn add_type(out: &mut String, shape: &TypeExpr) -> Result<(), AllocError> {
    let name = &shape.name.text;
    let count = shape.args.len();
    write!(out, "{name}({count})")
}

fn add_port(out: &mut String, port: &NetPort) -> Result<(), AllocError> {
    out.push_str(if port.input { "in " } else { "out " })?;
    add_type(out, &port.shape)?;
    let name = &port.name;
    let at = port.at;
    write!(out, " {name}@{at} ")
}

fn add_decl(out: &mut String, decl: &NetDecl) -> Result<(), AllocError> {
    out.push_str(if decl.param { "param " } else { "var " })?;
    add_type(out, &decl.shape)?;
    let name = &decl.name;
    let at = decl.at;
    let valued = if decl.value.is_some() { "=" } else { "" };
    write!(out, " {name}{valued}@{at} ")
}

fn add_instance(out: &mut String, instance: &NetInstance) -> Result<(), AllocError> {
    let id = &instance.id;
    let class = &instance.class;
    let at = instance.at;
    let class_at = instance.class_at;
    let count = instance.parameters.len();
    write!(out, "{id}@{at}={class}@{class_at}({count}) ")
}

fn add_connection(out: &mut String, connection: &NetConnection) -> Result<(), AllocError> {
    let src = &connection.src;
    let src_port = &connection.src_port;
    let dst = &connection.dst;
    let dst_port = &connection.dst_port;
    let at = connection.at;
    let count = connection.sizes.len();
    write!(out, "{src}.{src_port}>{dst}.{dst_port}@{at}[{count}] ")
}

fn outline(alloc: Global, net: &NetFile) -> Result<String, AllocError> {
    let mut out = String::new(alloc);
    let name = &net.name;
    let at = net.at;
    write!(out, "{name}@{at} ")?;
    for port in &net.ports {
        add_port(&mut out, port)?;
    }
    for decl in &net.decls {
        add_decl(&mut out, decl)?;
    }
    for instance in &net.instances {
        add_instance(&mut out, instance)?;
    }
    for connection in &net.connections {
        add_connection(&mut out, connection)?;
    }
    Ok(out)
}

/// The value of the first parameter of the first instance.
fn first_value(net: &NetFile) -> Option<&Expr> {
    let parameter = net.instances.first()?.parameters.first()?;
    Some(&parameter.value)
}

/// What is asked of a network, as text.
fn shown(alloc: Global, asked: Asked, net: &NetFile) -> Result<String, Memory> {
    match asked {
        Asked::Outline => Ok(outline(alloc, net)?),
        Asked::Value => match first_value(net) {
            Some(e) => expr_text(alloc, e),
            None => Ok(String::new(alloc)),
        },
    }
}

fn answer(alloc: Global, asked: Asked, text: &[u8]) -> Result<String, Memory> {
    if text.len() >= 1 << 32 {
        return Ok(String::from_str(alloc, "too long")?);
    }
    match read_network(alloc, 7, text) {
        Ok(net) => shown(alloc, asked, &net),
        Err(Front::Refused(refusal)) => {
            let rule = refusal.rule;
            let at = refusal.place.offset;
            Ok(format!(in alloc; "{rule} at {at}")?)
        }
        Err(Front::Memory) => Ok(String::from_str(alloc, "out of memory")?),
    }
}

/// Stops unless each text has its answer.
fn hold(rt: &impl Abort, alloc: Global, asked: Asked, rows: &[(&[u8], &str)]) {
    for &(text, expected) in rows {
        let found = answer(alloc, asked, text).expect(rt, "an answer");
        assert_eq!(rt; found.as_str(), expected);
    }
}

#[test]
fn networks(rt: HostRuntime) {
    hold(&rt, rt.alloc(), Asked::Outline, NETWORKS);
}

/// Networks, with the offsets of their elements.
const NETWORKS: &[(&[u8], &str)] = &[
    (b"<XDF name=\"T\"/>", "T@0 "),
    (
        b"<XDF name=\"Self\"><Instance id=\"a\"><Class name=\"Self\"/></Instance></XDF>",
        "Self@0 a@17=Self@34(0) ",
    ),
    (
        b"<?xml version=\"1.0\" encoding=\"UTF-8\"?>\n<!-- a parameter -->\n<XDF version=\"0.1\" name=\"Par\">\n<Port name=\"In\" kind=\"Input\"><Type name=\"uint\"><Entry kind=\"Expr\" name=\"size\"><Expr kind=\"Literal\" literal-kind=\"Integer\" value=\"8\"/></Entry></Type></Port><Port kind=\"Output\" name=\"Out\"><Type name=\"uint\"><Entry kind=\"Expr\" name=\"size\"><Expr kind=\"Literal\" literal-kind=\"Integer\" value=\"8\"/></Entry></Type></Port>\n<Instance id=\"a\"><Class name=\"Add\"/><Parameter name=\"K\"><Expr kind=\"BinOpSeq\">\n<Expr kind=\"Literal\" literal-kind=\"Integer\" value=\"2\"/><Op name=\"+\"/>\n<Expr value=\"3\" kind=\"Literal\" literal-kind=\"Integer\"/><Op name=\"*\"/>\n<Expr kind=\"Literal\" literal-kind=\"Integer\" value=\"4\"/></Expr></Parameter>\n<Attribute kind=\"Flag\" name=\"shown\"/></Instance>\n<Connection dst=\"a\" dst-port=\"In\" src=\"\" src-port=\"In\"/>\n<Connection src=\"a\" src-port=\"Out\" dst=\"\" dst-port=\"Out\"/>\n</XDF>",
        "Par@60 in uint(1) In@91 out uint(1) Out@246 a@404=Add@421(1) .In>a.In@747[0] a.Out>.Out@804[0] ",
    ),
    (
        b"<XDF name='D'><Decl name='p' kind='Param'><Type name='bool'/></Decl><Decl kind='Param' name='q'><Expr kind='Literal' literal-kind='Integer' value='7'/><Type name='int'></Type></Decl><!-- x --><Decl kind='Variable' name='v'><Type name='List'><Entry kind='Type' name='type'><Type name='bool'/></Entry><Entry kind='Expr' name='size'><Expr kind='Literal' literal-kind='Integer' value='7'/></Entry></Type><Expr kind='Literal' literal-kind='Boolean' value='true'/></Decl></XDF>",
        "D@0 param bool(0) p@14 param int(0) q=@68 var List(2) v=@192 ",
    ),
    (
        b"<XDF name='C'><Attribute name='any'><x a='1' a='2'><y/></x><z/></Attribute><Connection src='a' src-port='O' dst='b' dst-port='I'><Attribute name='bufferSize'><Expr kind='Literal' literal-kind='Integer' value='7'/></Attribute><Attribute name='other'><Foo/></Attribute><Attribute name='bufferSize'><Expr kind='Literal' literal-kind='Integer' value='7'/></Attribute></Connection></XDF>",
        "C@0 a.O>b.I@75[2] ",
    ),
    (b"<XDF name='U' x='1' x='2' kind='a' kind='b'/>", "U@0 "),
    (
        b"<XDF name='Y'><Port kind='Input' name='a'><Type name='9 x'/></Port></XDF>",
        "Y@0 in 9 x(0) a@14 ",
    ),
    (
        b"<XDF name='T'><Attribute name='x'><x><x><x><x><x><x><x><x><x><x><x><x><x><x><x><x><x><x><x><x><x><x><x><x><x><x><x><x><x><x><x><x><x><x><x><x><x><x><x><x><x><x><x><x><x><x><x><x><x><x><x><x><x><x><x><x><x><x><x><x><x><x></x></x></x></x></x></x></x></x></x></x></x></x></x></x></x></x></x></x></x></x></x></x></x></x></x></x></x></x></x></x></x></x></x></x></x></x></x></x></x></x></x></x></x></x></x></x></x></x></x></x></x></x></x></x></x></x></x></x></x></x></x></x></Attribute></XDF>",
        "T@0 ",
    ),
    (
        b"<XDF name='P'><Instance id='x'><Attribute name='bufferSize'><Op/></Attribute><Parameter name='a'><Expr kind='Literal' literal-kind='Integer' value='7'/></Parameter><Class name='a.b.C'/><Parameter name='a'><Expr kind='Literal' literal-kind='Boolean' value='true'/></Parameter></Instance></XDF>",
        "P@0 x@14=a.b.C@164(2) ",
    ),
];

#[test]
fn values(rt: HostRuntime) {
    hold(&rt, rt.alloc(), Asked::Value, VALUES);
}

/// Expressions.
const VALUES: &[(&[u8], &str)] = &[
    (
        b"<XDF name='V'><Instance id='x'><Class name='A'/><Parameter name='k'><Expr kind='Literal' literal-kind='Integer' value='007'/></Parameter></Instance></XDF>",
        "7@68",
    ),
    (
        b"<XDF name='V'><Instance id='x'><Class name='A'/><Parameter name='k'><Expr kind='Literal' literal-kind='Integer' value='-340282366920938463463374607431768211455'/></Parameter></Instance></XDF>",
        "(- 340282366920938463463374607431768211455@68)@68",
    ),
    (
        b"<XDF name='V'><Instance id='x'><Class name='A'/><Parameter name='k'><Expr kind='Literal' literal-kind='Boolean' value='false'/></Parameter></Instance></XDF>",
        "false@68",
    ),
    (
        b"<XDF name='V'><Instance id='x'><Class name='A'/><Parameter name='k'><Expr kind='UnaryOp'><Op name='~'/><Expr kind='Var' name='v'/></Expr></Parameter></Instance></XDF>",
        "(~ v@103)@68",
    ),
    (
        b"<XDF name='V'><Instance id='x'><Class name='A'/><Parameter name='k'><Expr kind='List'><Expr kind='Literal' literal-kind='Integer' value='1'/><Expr kind='Var' name='b'/></Expr></Parameter></Instance></XDF>",
        "(list 1@86 b@141)@68",
    ),
    (
        b"<XDF name='V'><Instance id='x'><Class name='A'/><Parameter name='k'><Expr kind='BinOpSeq'><Expr kind='Literal' literal-kind='Integer' value='2'/><Op name='+'/><Expr kind='Literal' literal-kind='Integer' value='3'/><Op name='*'/><Expr kind='Literal' literal-kind='Integer' value='4'/></Expr></Parameter></Instance></XDF>",
        "(+ 2@90 (* 3@159 4@228)@159)@68",
    ),
    (
        b"<XDF name='V'><Instance id='x'><Class name='A'/><Parameter name='k'><Expr kind='BinOpSeq'><Expr kind='Literal' literal-kind='Integer' value='2'/><Op name='-'/><Expr kind='Literal' literal-kind='Integer' value='3'/><Op name='+'/><Expr kind='Literal' literal-kind='Integer' value='4'/></Expr></Parameter></Instance></XDF>",
        "(+ (- 2@90 3@159)@90 4@228)@68",
    ),
    (
        b"<XDF name='V'><Instance id='x'><Class name='A'/><Parameter name='k'><Expr kind='BinOpSeq'><Expr kind='Var' name='a'/><Op name='||'/><Expr kind='Var' name='b'/><Op name='='/><Expr kind='Var' name='c'/><Op name='&lt;&lt;'/><Expr kind='Var' name='d'/><Op name='div'/><Expr kind='Var' name='e'/><Op name='&amp;'/><Expr kind='Var' name='f'/></Expr></Parameter></Instance></XDF>",
        "(or a@90 (& (= b@132 (<< c@173 (div d@221 e@264)@221)@173)@132 f@309)@132)@68",
    ),
    (
        b"<XDF name='V'><Instance id='x'><Class name='A'/><Parameter name='k'><Expr kind='BinOpSeq'><Expr kind='BinOpSeq'><Expr kind='Literal' literal-kind='Integer' value='1'/><Op name='or'/><Expr kind='Literal' literal-kind='Integer' value='2'/></Expr><Op name='*'/><Expr kind='Literal' literal-kind='Integer' value='3'/></Expr></Parameter></Instance></XDF>",
        "(* (or 1@112 2@182)@90 3@258)@68",
    ),
];

#[test]
fn faults(rt: HostRuntime) {
    hold(&rt, rt.alloc(), Asked::Outline, FAULTS);
}

/// Each rule that a text may break, at each kind of place.
const FAULTS: &[(&[u8], &str)] = &[
    (b"<XDF name=\"T\"><Foo/></XDF>", "F2 at 14"),
    (b"<Foo/>", "F2 at 0"),
    (b"<Port kind='Input' name='a'/>", "F2 at 0"),
    (b"<XDF name='T'><Foo/></XDG>", "F2 at 14"),
    (b"<XDF name='T'><Op name='+'/></XDF>", "F2 at 14"),
    (
        b"<XDF name='T'><Port kind='Input' name='a'><Type name='bool'/><Type name='bool'/></Port></XDF>",
        "F2 at 61",
    ),
    (
        b"<XDF name='T'><Instance id='a'><Class name='A'/><Class name='A'/></Instance></XDF>",
        "F2 at 48",
    ),
    (
        b"<XDF name='T'><Instance id='a'><Class name='A'><Attribute name='x'/></Class></Instance></XDF>",
        "F2 at 47",
    ),
    (
        b"<XDF name='T'><Connection src='' src-port='a' dst='' dst-port='b'><Parameter name='a'/></Connection></XDF>",
        "F2 at 66",
    ),
    (
        b"<XDF name='V'><Instance id='x'><Class name='A'/><Parameter name='k'><Expr kind='UnaryOp'><Expr kind='Var' name='v'/><Op name='-'/></Expr></Parameter></Instance></XDF>",
        "F2 at 89",
    ),
    (
        b"<XDF name='V'><Instance id='x'><Class name='A'/><Parameter name='k'><Expr kind='UnaryOp'><Op name='-'/><Op name='-'/></Expr></Parameter></Instance></XDF>",
        "F2 at 103",
    ),
    (
        b"<XDF name='V'><Instance id='x'><Class name='A'/><Parameter name='k'><Expr kind='BinOpSeq'><Op name='-'/><Expr kind='Var' name='v'/></Expr></Parameter></Instance></XDF>",
        "F2 at 90",
    ),
    (
        b"<XDF name='V'><Instance id='x'><Class name='A'/><Parameter name='k'><Expr kind='BinOpSeq'><Expr kind='Var' name='v'/><Expr kind='Var' name='v'/></Expr></Parameter></Instance></XDF>",
        "F2 at 117",
    ),
    (b"<XDF></XDF>", "F3 at 0"),
    (b"<XDF name='T' name='T'/>", "F3 at 0"),
    (b"<XDF name='T' name='U'><Foo/></XDF>", "F3 at 0"),
    (b"<XDF name='1'/>", "F3 at 0"),
    (b"<XDF name='end'/>", "F3 at 0"),
    (b"<XDF name='\xC3\xA9'/>", "F3 at 0"),
    (
        b"<XDF name='T'><Port kind='input' name='a'><Type name='bool'/></Port></XDF>",
        "F3 at 14",
    ),
    (
        b"<XDF name='T'><Port kind='Input'><Type name='bool'/></Port></XDF>",
        "F3 at 14",
    ),
    (
        b"<XDF name='T'><Instance id='a'><Class name='a..b'/></Instance></XDF>",
        "F3 at 31",
    ),
    (
        b"<XDF name='T'><Connection src='' src-port='' dst='' dst-port='b'/></XDF>",
        "F3 at 14",
    ),
    (
        b"<XDF name='T'><Connection src-port='a' dst='' dst-port='b'/></XDF>",
        "F3 at 14",
    ),
    (b"<XDF name='T'><Attribute/></XDF>", "F3 at 14"),
    (
        b"<XDF name='T'><Port kind='Input' name='a'><Type name='int'><Entry kind='Expr' name='width'><Expr kind='Literal' literal-kind='Integer' value='7'/></Entry></Type></Port></XDF>",
        "F3 at 59",
    ),
    (
        b"<XDF name='V'><Instance id='x'><Class name='A'/><Parameter name='k'><Expr kind='Literal' literal-kind='Integer' value=''/></Parameter></Instance></XDF>",
        "F3 at 68",
    ),
    (
        b"<XDF name='V'><Instance id='x'><Class name='A'/><Parameter name='k'><Expr kind='Literal' literal-kind='Integer' value='-'/></Parameter></Instance></XDF>",
        "F3 at 68",
    ),
    (
        b"<XDF name='V'><Instance id='x'><Class name='A'/><Parameter name='k'><Expr kind='Literal' literal-kind='Integer' value='1a'/></Parameter></Instance></XDF>",
        "F3 at 68",
    ),
    (
        b"<XDF name='V'><Instance id='x'><Class name='A'/><Parameter name='k'><Expr kind='Literal' literal-kind='Integer' value='--1'/></Parameter></Instance></XDF>",
        "F3 at 68",
    ),
    (
        b"<XDF name='V'><Instance id='x'><Class name='A'/><Parameter name='k'><Expr kind='Literal' literal-kind='Integer' value='340282366920938463463374607431768211456'/></Parameter></Instance></XDF>",
        "F3 at 68",
    ),
    (
        b"<XDF name='V'><Instance id='x'><Class name='A'/><Parameter name='k'><Expr kind='Literal' literal-kind='Real' value='1'/></Parameter></Instance></XDF>",
        "F3 at 68",
    ),
    (
        b"<XDF name='V'><Instance id='x'><Class name='A'/><Parameter name='k'><Expr kind='Literal' literal-kind='Boolean' value='True'/></Parameter></Instance></XDF>",
        "F3 at 68",
    ),
    (
        b"<XDF name='V'><Instance id='x'><Class name='A'/><Parameter name='k'><Expr kind='App' value='1'/></Parameter></Instance></XDF>",
        "F3 at 68",
    ),
    (
        b"<XDF name='V'><Instance id='x'><Class name='A'/><Parameter name='k'><Expr kind='BinOpSeq'><Expr kind='Var' name='v'/><Op name='**'/><Expr kind='Var' name='v'/></Expr></Parameter></Instance></XDF>",
        "F3 at 117",
    ),
    (
        b"<XDF name='V'><Instance id='x'><Class name='A'/><Parameter name='k'><Expr kind='UnaryOp'><Op name='+'/><Expr kind='Var' name='v'/></Expr></Parameter></Instance></XDF>",
        "F3 at 89",
    ),
    (b"<XDF name=\"T\"><Port ki", "F1 at 22"),
    (
        b"<XDF name='T'><Port kind='Input' name='a'></Port></XDF>",
        "F1 at 43",
    ),
    (
        b"<XDF name='T'><Port kind='Input' name='a'/></XDF>",
        "F1 at 41",
    ),
    (
        b"<XDF name='T'><Decl kind='Variable' name='a'><Type name='bool'/></Decl></XDF>",
        "F1 at 65",
    ),
    (
        b"<XDF name='T'><Decl kind='Param' name='a'><Expr kind='Literal' literal-kind='Integer' value='7'/></Decl></XDF>",
        "F1 at 98",
    ),
    (
        b"<XDF name='T'><Instance id='a'><Parameter name='k'><Expr kind='Literal' literal-kind='Integer' value='7'/></Parameter></Instance></XDF>",
        "F1 at 119",
    ),
    (
        b"<XDF name='T'><Instance id='a'><Class name='A'/><Parameter name='k'></Parameter></Instance></XDF>",
        "F1 at 69",
    ),
    (
        b"<XDF name='T'><Connection src='' src-port='a' dst='' dst-port='b'><Attribute name='bufferSize'/></Connection></XDF>",
        "F1 at 94",
    ),
    (
        b"<XDF name='V'><Instance id='x'><Class name='A'/><Parameter name='k'><Expr kind='List'></Expr></Parameter></Instance></XDF>",
        "F1 at 87",
    ),
    (
        b"<XDF name='V'><Instance id='x'><Class name='A'/><Parameter name='k'><Expr kind='UnaryOp'></Expr></Parameter></Instance></XDF>",
        "F1 at 90",
    ),
    (
        b"<XDF name='V'><Instance id='x'><Class name='A'/><Parameter name='k'><Expr kind='UnaryOp'><Op name='-'/></Expr></Parameter></Instance></XDF>",
        "F1 at 104",
    ),
    (
        b"<XDF name='V'><Instance id='x'><Class name='A'/><Parameter name='k'><Expr kind='BinOpSeq'><Expr kind='Var' name='v'/></Expr></Parameter></Instance></XDF>",
        "F1 at 118",
    ),
    (
        b"<XDF name='V'><Instance id='x'><Class name='A'/><Parameter name='k'><Expr kind='BinOpSeq'><Expr kind='Var' name='v'/><Op name='+'/></Expr></Parameter></Instance></XDF>",
        "F1 at 132",
    ),
    (b"<XDF name='T'>x</XDF>", "F1 at 14"),
    (
        b"<XDF name='aaaaaaaaaaaaaaaaaaaaaaaaaaaaaaaaaaaaaaaaaaaaaaaaaaaaaaaaaaaaaaaaaaaaaaaaaaaaaaaaaaaaaaaaaaaaaaaaaaaaaaaaaaaaaaaaaaaaaaaaaaaaaaaaaaaaaaaaaaaaaaaaaaaaaaaaaaaaaaaaaaaaaaaaaaaaaaaaaaaaaaaaaaaaaaaaaaaaaaaaaaaaaaaaaaaaaaaaaaaaaaaaaaaaaaaaaaaaaaaaaaaaaaaaaaaaaaaa'/>",
        "Z11 at 11",
    ),
    (
        b"<XDF name='T'><Instance id='a'><Class name='A.bbbbbbbbbbbbbbbbbbbbbbbbbbbbbbbbbbbbbbbbbbbbbbbbbbbbbbbbbbbbbbbbbbbbbbbbbbbbbbbbbbbbbbbbbbbbbbbbbbbbbbbbbbbbbbbbbbbbbbbbbbbbbbbbbbbbbbbbbbbbbbbbbbbbbbbbbbbbbbbbbbbbbbbbbbbbbbbbbbbbbbbbbbbbbbbbbbbbbbbbbbbbbbbbbbbbbbbbbbbbbbbbbbbbbbbbbbbbbbbbbbbbbbbbbbbbbbbb'/></Instance></XDF>",
        "Z11 at 44",
    ),
    (
        b"<XDF name='T'><Attribute name='x'><x><x><x><x><x><x><x><x><x><x><x><x><x><x><x><x><x><x><x><x><x><x><x><x><x><x><x><x><x><x><x><x><x><x><x><x><x><x><x><x><x><x><x><x><x><x><x><x><x><x><x><x><x><x><x><x><x><x><x><x><x><x><x></x></x></x></x></x></x></x></x></x></x></x></x></x></x></x></x></x></x></x></x></x></x></x></x></x></x></x></x></x></x></x></x></x></x></x></x></x></x></x></x></x></x></x></x></x></x></x></x></x></x></x></x></x></x></x></x></x></x></x></x></x></x></x></Attribute></XDF>",
        "F5 at 220",
    ),
    (
        b"<?xml version=\"1.0\" encoding=\"latin-1\"?><Foo/>",
        "F4 at 0",
    ),
    (b"<XDF name='T' x='\xFF'><Foo/></XDF>", "F4 at 17"),
    (b"<XDF name='T'><Foo/><!--\xFF--></XDF>", "F2 at 14"),
];

/// A row of so many operands as the value of a parameter.
fn row_of(alloc: Global, operands: usize) -> Result<Vec<u8>, AllocError> {
    let mut text = Vec::new(alloc);
    text.extend_from_slice(
        b"<XDF name='V'><Instance id='x'><Class name='A'/><Parameter name='k'><Expr kind='BinOpSeq'>",
    )?;
    for i in 0..operands {
        if i > 0 {
            text.extend_from_slice(b"<Op name='+'/>")?;
        }
        text.extend_from_slice(b"<Expr kind='Var' name='v'/>")?;
    }
    text.extend_from_slice(b"</Expr></Parameter></Instance></XDF>")?;
    Ok(text)
}

#[test]
fn a_row_of_256_operands_is_read_and_one_of_257_is_too_high(rt: HostRuntime) {
    let alloc = rt.alloc();
    let row = row_of(alloc, 256).expect(&rt, "a text");
    let high = answer(alloc, Asked::Outline, &row).expect(&rt, "an answer");
    assert_eq!(rt; high.as_str(), "V@0 x@14=A@31(1) ");
    let row = row_of(alloc, 257).expect(&rt, "a text");
    let higher = answer(alloc, Asked::Outline, &row).expect(&rt, "an answer");
    assert_eq!(rt; higher.as_str(), "F5 at 68");
}

/// A network that has itself as an instance.
const SELF: &[u8] =
    b"<XDF name=\"Self\"><Instance id=\"a\"><Class name=\"Self\"/></Instance></XDF>";

/// How many prefixes of a text break off where they end, one after another from the empty one.
fn broken_prefixes(alloc: Global, text: &[u8]) -> Result<usize, Memory> {
    for size in 0..text.len() {
        let found = answer(alloc, Asked::Outline, &text[..size])?;
        let expected = format!(in alloc; "F1 at {size}")?;
        if found != expected {
            return Ok(size);
        }
    }
    Ok(text.len())
}

#[test]
fn each_prefix_of_a_network_breaks_off_at_its_end(rt: HostRuntime) {
    let broken = broken_prefixes(rt.alloc(), SELF).expect(&rt, "an answer");
    assert_eq!(rt; broken, SELF.len());
}
