//! Texts with their tags, or the rule that they break first.

use fnl_markup::{Attribute, Tag, read_markup};
use rvc_base::Memory;
use std::alloc::Global;
use std::process::Abort;
use std::str;

/// Adds bytes to a text, if they are UTF-8.
fn add(out: &mut String, bytes: &[u8]) -> Result<(), Memory> {
    let text = str::from_utf8(bytes).unwrap_or("?");
    out.push_str(text)?;
    Ok(())
}

fn add_attributes(out: &mut String, attributes: &[Attribute]) -> Result<(), Memory> {
    for attribute in attributes {
        out.push_str(" ")?;
        add(out, &attribute.name)?;
        out.push_str("=")?;
        add(out, &attribute.value)?;
    }
    Ok(())
}

fn add_tag(out: &mut String, tag: &Tag) -> Result<(), Memory> {
    match tag {
        Tag::Opens {
            name,
            attributes,
            at,
        } => {
            write!(out, "<{at} ")?;
            add(out, name)?;
            add_attributes(out, attributes)?;
            out.push_str("> ")?;
        }
        Tag::Closes { at } => write!(out, "/{at} ")?,
    }
    Ok(())
}

/// What is asked of a text.
#[derive(Clone, Copy)]
enum Asked {
    Tags,
    Fault,
}

/// The tags of a text as text if they are asked for, and the rule that it breaks with its place.
fn answer(alloc: Global, asked: Asked, text: &[u8]) -> Result<String, Memory> {
    if text.len() >= 1 << 32 {
        return Err(Memory);
    }
    let mut out = String::new(alloc);
    let found = read_markup(alloc, 7, text)?;
    if let Asked::Tags = asked {
        for tag in &found.tags {
            add_tag(&mut out, tag)?;
        }
    }
    if let Some(refusal) = found.broken {
        let rule = refusal.rule;
        let at = refusal.place.offset;
        write!(out, "{rule} at {at}")?;
    }
    Ok(out)
}

/// Stops unless each text has its answer.
fn hold(rt: &impl Abort, alloc: Global, asked: Asked, rows: &[(&[u8], &str)]) {
    for &(text, expected) in rows {
        let found = answer(alloc, asked, text).expect(rt, "an answer");
        assert_eq!(rt; found.as_str(), expected);
    }
}

#[test]
fn tags(rt: HostRuntime) {
    hold(&rt, rt.alloc(), Asked::Tags, TAGS);
}

/// Elements, attributes, values, what may stand before them and between them.
const TAGS: &[(&[u8], &str)] = &[
    (b"<a/>", "<0 a> /2 "),
    (b"<a></a>", "<0 a> /4 "),
    (b"<a><b/></a", "<0 a> <3 b> /5 /8 F1 at 10"),
    (b"<a><b/><c x='1' ?", "<0 a> <3 b> /5 F1 at 16"),
    (b" \t\r\n<a \n></a >\n", "<4 a> /10 "),
    (
        b"<a><b/><c><d/></c></a>",
        "<0 a> <3 b> /5 <7 c> <10 d> /12 /15 /19 ",
    ),
    (b"<a x='1'\ty=\"2\"/>", "<0 a x=1 y=2> /14 "),
    (b"<a x = '\"'/>", "<0 a x=\"> /10 "),
    (b"<a x=\"it's\"/>", "<0 a x=it's> /11 "),
    (b"<a x='' x='2'/>", "<0 a x= x=2> /13 "),
    (b"<a x='&lt;&gt;&amp;&quot;&apos;'/>", "<0 a x=<>&\"'> /32 "),
    (b"<a x='&amp;lt;'/>", "<0 a x=&lt;> /15 "),
    (b"<a_:9.b-c d:e='\n'/>", "<0 a_:9.b-c d:e=\n> /17 "),
    (
        b"<!----><a><!-- <b> -- > ---></a><!--\xC3\xA9-->",
        "<7 a> /29 ",
    ),
    (b"\xEF\xBB\xBF<a/>", "<3 a> /5 "),
    (b"<?xml version='1.0'?><a/>", "<21 a> /23 "),
    (
        b"\xEF\xBB\xBF<?xml encoding=\"utf-8\" ?>\n<a/>",
        "<29 a> /31 ",
    ),
    (
        b"<?xml encoding='UTF-8' standalone='yes'?><a x='\xC3\xA9'/>",
        "<41 a x=\u{E9}> /50 ",
    ),
];

#[test]
fn faults(rt: HostRuntime) {
    hold(&rt, rt.alloc(), Asked::Fault, FAULTS);
}

/// The first byte that can't follow, or the end; and what isn't UTF-8.
const FAULTS: &[(&[u8], &str)] = &[
    (b"", "F1 at 0"),
    (b" ", "F1 at 1"),
    (b"x", "F1 at 0"),
    (b"</a>", "F1 at 1"),
    (b"<a>", "F1 at 3"),
    (b"<a", "F1 at 2"),
    (b"< a/>", "F1 at 1"),
    (b"<a>x</a>", "F1 at 3"),
    (b"<a></b>", "F1 at 5"),
    (b"<ab></a>", "F1 at 7"),
    (b"<a></ab>", "F1 at 6"),
    (b"<a/><b/>", "F1 at 5"),
    (b"<a/>x", "F1 at 4"),
    (b"<a / >", "F1 at 4"),
    (b"<a x/>", "F1 at 4"),
    (b"<a x=1/>", "F1 at 5"),
    (b"<a x='1'y='2'/>", "F1 at 8"),
    (b"<a x='<'/>", "F1 at 6"),
    (b"<a x='&#65;'/>", "F1 at 7"),
    (b"<a x='&ltt;'/>", "F1 at 9"),
    (b"<a x='&;'/>", "F1 at 7"),
    (b"<a x='1\"/>", "F1 at 10"),
    (b"<!-- -- ><a/>", "F1 at 13"),
    (b"<!a><a/>", "F1 at 2"),
    (b" <?xml?><a/>", "F1 at 2"),
    (b"<?xmlx?><a/>", "F1 at 5"),
    (b"<?xml ?><?xml?><a/>", "F1 at 9"),
    (b"<\xC3\xA9/>", "F1 at 1"),
    (b"<a>\xFF</a>", "F1 at 3"),
    (b"\xEF\xBB<a/>", "F4 at 0"),
    (b"<?xml version=\"1.0\" encoding=\"latin-1\"?>", "F4 at 0"),
    (b"\xEF\xBB\xBF<?xml encoding='UTF8'?><a/>", "F4 at 3"),
    (b"<?xml encoding='a'", "F1 at 18"),
    (b"<a x='\xFF'/>", "F4 at 6"),
    (b"<a x='\xC3'/>", "F4 at 6"),
    (b"<!--\xC3-->x", "F4 at 4"),
    (b"x<!--\xC3-->", "F1 at 0"),
];

/// A text of so many nested elements.
fn nested(alloc: Global, count: usize) -> Result<Vec<u8>, Memory> {
    let mut text = Vec::new(alloc);
    for _ in 0..count {
        text.extend_from_slice(b"<a>")?;
    }
    for _ in 0..count {
        text.extend_from_slice(b"</a>")?;
    }
    Ok(text)
}

#[test]
fn a_hundred_thousand_elements_within_one_another(rt: HostRuntime) {
    let text = nested(rt.alloc(), 100_000).expect(&rt, "a text");
    let found = answer(rt.alloc(), Asked::Tags, &text).expect(&rt, "an answer");
    assert!(rt; found.ends_with("/699997 "));
}

/// An element whose value has so many bytes.
fn with_value(alloc: Global, size: usize) -> Result<Vec<u8>, Memory> {
    let value = vec![in alloc; b'v'; size]?;
    let mut text = Vec::new(alloc);
    text.extend_from_slice(b"<a x='")?;
    text.extend_from_slice(&value)?;
    text.extend_from_slice(b"'/>")?;
    Ok(text)
}

#[test]
fn a_value_of_a_million_bytes(rt: HostRuntime) {
    let text = with_value(rt.alloc(), 1_000_000).expect(&rt, "a text");
    let found = answer(rt.alloc(), Asked::Tags, &text).expect(&rt, "an answer");
    // `<0 a x=`, the value, `> `, `/1000007 `
    assert_eq!(rt; found.len(), 1_000_018);
}
