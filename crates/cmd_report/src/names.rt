//! The names for which the numbers of files and feeds stand.

ghost use Rattle.std.specs.Prelude.{◌≡◌, ◌≤◌, [], map, slice_get, slice_index_or, string_bytes, unwrap_or};
ghost use Rattle.rvc_words.specs.Words.{port_text};
ghost use Rattle.cmd_ports.specs.Matching.{file_of, names_of};
ghost use Rattle.cmd_ports.specs.Opening.{feeds_of, file_at};
ghost use Rattle.cmd_report.specs.About.{about, feed_name, file_name, file_opened, unread_name};

use crate::status::ReadAt;
use crate::subject::Subject;
use cmd_ports::{FIRST_INPUT_FEED, file_of};
use net_model::{End, Link, Port};
use rvc_words::PortWord;

/// The name of what couldn't be read.
pub(crate) fn unread_name<'a>(subject: &Subject<'a>, at: ReadAt) -> &'a [u8]
    ensures { result.now ≡ unread_name (about subject.now) at }
{
    match at {
        ReadAt::File(file) => file_name(subject, file),
        ReadAt::Feed(feed) => feed_name(subject, feed),
    }
}

/// The name of a file; file 0 is the command line.
pub(crate) fn file_name<'a>(subject: &Subject<'a>, file: u32) -> &'a [u8]
    ensures { result.now ≡ file_name (about subject.now) file }
{
    if file == 0 {
        b"words"
    } else {
        text_at(subject.files, file as usize - 1)
    }
}

/// The text at a place, or nothing.
fn text_at(texts: &[String], place: usize) -> &[u8]
    ensures { result.now ≡ slice_index_or (map string_bytes texts.now) place [] }
{
    match texts.get(place) {
        Some(text) => text.as_bytes(),
        None => b"",
    }
}

/// The file of a feed; feed 0 is the trace.
fn feed_name<'a>(subject: &Subject<'a>, feed: u32) -> &'a [u8]
    ensures { result.now ≡ feed_name (about subject.now) feed }
{
    if feed == 0 {
        subject.trace.as_bytes()
    } else {
        input_file(subject.words, subject.links, subject.ins, feed)
    }
}

/// The file of the feed of an input link, or nothing if there is none.
fn input_file<'a>(words: &'a [PortWord], links: &[Link], ins: &[Port], feed: u32) -> &'a [u8]
    requires { 1 ≤ feed }
    ensures { result.now
        ≡ file_opened feed (feeds_of links.now (names_of ins.now) (map port_text words.now)) }
{
    let mut number = FIRST_INPUT_FEED;
    let mut rest = links;
    'links: while let Some((link, others)) = rest.split_first() {
        rest = others;
        let End::Net { port } = link.from else {
            continue;
        };
        if number == feed {
            return file_at(words, ins, port);
        }
        number += 1;
    }
    b""
}

/// The file of the input at a place, or nothing.
fn file_at<'a>(words: &'a [PortWord], ins: &[Port], port: u32) -> &'a [u8]
    ensures { result.now
        ≡ unwrap_or (file_at (slice_get (names_of ins.now) port) (map port_text words.now)) [] }
{
    match ins.get(port as usize) {
        Some(input) => file_named(words, input.name.as_str()),
        None => b"",
    }
}

/// The file of the word that names this port, or nothing.
fn file_named<'a>(words: &'a [PortWord], name: &str) -> &'a [u8]
    ensures { result.now ≡ unwrap_or (file_of name.now (map port_text words.now)) [] }
{
    match file_of(words, name) {
        Some(file) => file.as_bytes(),
        None => b"",
    }
}
