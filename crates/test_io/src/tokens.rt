//! Tokens and bytes, as rows.

ghost use Rattle.std.specs.Prelude.{◌≡◌, IsTrue, true};
ghost use Rattle.rvc_base.specs.Storing.{IsSize};
ghost use Rattle.rvc_io.specs.MemFeeds.{feed_is_open, left_on};
ghost use Rattle.port_files.specs.Coming.{EndIsTrue};

use port_files::{Next, TokenFeed, encode};
use rvc_base::{MAX_SIZE, Num, Scalar};
use rvc_io::{Feeds, MemFeeds, names_are_distinct};
use std::alloc::{AllocError, Global};
use std::process::Abort;

/// The type of the tokens, the call that fails, the most bytes that a call moves, the bytes of the file,
/// and what comes at four calls.
type Row = (Scalar, u64, u32, &'static [u8], [Next; 4]);

const ROWS: &[Row] = &[
    (
        Scalar::Int(16),
        0,
        65_536,
        &[0x01, 0x80, 0xFF],
        [
            Next::Token(-32_767),
            Next::End { rest: 1 },
            Next::End { rest: 1 },
            Next::End { rest: 1 },
        ],
    ),
    (
        Scalar::Uint(32),
        4,
        3,
        &[1, 2, 3, 4, 5, 6, 7, 8],
        [
            Next::Token(0x0403_0201),
            Next::Failed,
            Next::Token(0x0807_0605),
            Next::End { rest: 0 },
        ],
    ),
    (
        Scalar::Bool,
        0,
        1,
        &[0, 7],
        [
            Next::Token(0),
            Next::Token(1),
            Next::End { rest: 0 },
            Next::End { rest: 0 },
        ],
    ),
    // the greatest and the least of each wide type, and remainders
    (
        Scalar::Uint(64),
        0,
        3,
        &[
            0xFF, 0xFF, 0xFF, 0xFF, 0xFF, 0xFF, 0xFF, 0xFF, 0, 0, 0, 0, 0, 0, 0, 0, 1,
        ],
        [
            Next::Token(18_446_744_073_709_551_615),
            Next::Token(0),
            Next::End { rest: 1 },
            Next::End { rest: 1 },
        ],
    ),
    (
        Scalar::Int(64),
        0,
        65_536,
        &[
            0xFF, 0xFF, 0xFF, 0xFF, 0xFF, 0xFF, 0xFF, 0x7F, 0, 0, 0, 0, 0, 0, 0, 0x80,
        ],
        [
            Next::Token(9_223_372_036_854_775_807),
            Next::Token(-9_223_372_036_854_775_808),
            Next::End { rest: 0 },
            Next::End { rest: 0 },
        ],
    ),
    (
        Scalar::Int(33),
        0,
        5,
        &[
            0xFF, 0xFF, 0xFF, 0xFF, 0, 0, 0, 0, 0, 0, 0, 0, 1, 0, 0, 0, 1, 2, 3, 4, 5, 6, 7,
        ],
        [
            Next::Token(4_294_967_295),
            Next::Token(-4_294_967_296),
            Next::End { rest: 7 },
            Next::End { rest: 7 },
        ],
    ),
];

/// One file, named `in`.
fn one_file(alloc: Global, bytes: &[u8]) -> Result<Vec<(String, Vec<u8>)>, AllocError> {
    let mut files = Vec::new(alloc);
    files.push((
        String::from_str(alloc, "in")?,
        Vec::from_slice(alloc, bytes)?,
    ))?;
    Ok(files)
}

/// Whether a type has a size that it may have.
fn is_sized(kind: Scalar) -> bool
    ensures { result ≡ true → IsSize kind }
{
    match kind {
        Scalar::Bool => true,
        Scalar::Int(size) => size >= 1 && size <= MAX_SIZE,
        Scalar::Uint(size) => size >= 1 && size <= MAX_SIZE,
    }
}

/// This comes next.
fn comes<R: Abort>(rt: &R, tokens: &mut TokenFeed, feeds: &mut MemFeeds, want: Next)
    requires open { feed_is_open feeds.old 0 ≡ true }
    requires same_feed { EndIsTrue tokens.old (left_on feeds.old 0) }
    ensures open { feed_is_open feeds.new 0 ≡ true }
    ensures same_feed { EndIsTrue tokens.new (left_on feeds.new 0) }
{
    assert!(rt; tokens.next(0, feeds) == want);
}

/// A feed gives what a row says.
fn hold_row<R: Abort>(rt: &R, alloc: Global, row: &Row) {
    let &(kind, failing, step, bytes, want) = row;
    assert!(rt; step > 0 && is_sized(kind));
    let files = one_file(alloc, bytes).expect(rt, "a file");
    assert!(rt; names_are_distinct(&files));
    let failing = vec![in alloc; failing].expect(rt, "a list");
    let mut feeds = MemFeeds::new(alloc, files, failing, step, 1).expect(rt, "feeds");
    feeds.open(0, "in").expect(rt, "a feed");
    let mut tokens = TokenFeed::new(alloc, kind).expect(rt, "tokens");
    comes(rt, &mut tokens, &mut feeds, want[0]);
    comes(rt, &mut tokens, &mut feeds, want[1]);
    comes(rt, &mut tokens, &mut feeds, want[2]);
    comes(rt, &mut tokens, &mut feeds, want[3]);
}

#[test]
fn bytes_come_as_tokens(rt: HostRuntime) {
    for row in ROWS {
        hold_row(&rt, rt.alloc(), row);
    }
}

/// A type, a number, and the bytes that are written of it.
const WRITTEN: &[(Scalar, Num, &[u8])] = &[
    (Scalar::Bool, 1, &[1]),
    (Scalar::Bool, 7, &[1]),
    (Scalar::Int(8), 200, &[200]),
    (Scalar::Int(16), -300, &[0xD4, 0xFE]),
    (Scalar::Int(20), -1, &[0xFF, 0xFF, 0xFF, 0xFF]),
    (Scalar::Uint(20), 1_048_576, &[0, 0, 0, 0]),
    (
        Scalar::Int(33),
        4_294_967_295,
        &[0xFF, 0xFF, 0xFF, 0xFF, 0, 0, 0, 0],
    ),
    (
        Scalar::Int(33),
        -4_294_967_296,
        &[0, 0, 0, 0, 0xFF, 0xFF, 0xFF, 0xFF],
    ),
    (
        Scalar::Uint(64),
        18_446_744_073_709_551_615,
        &[0xFF, 0xFF, 0xFF, 0xFF, 0xFF, 0xFF, 0xFF, 0xFF],
    ),
    (
        Scalar::Int(64),
        9_223_372_036_854_775_807,
        &[0xFF, 0xFF, 0xFF, 0xFF, 0xFF, 0xFF, 0xFF, 0x7F],
    ),
    (
        Scalar::Int(64),
        -9_223_372_036_854_775_808,
        &[0, 0, 0, 0, 0, 0, 0, 0x80],
    ),
];

/// The bytes of each row are written, and no others.
fn hold_written<R: Abort>(rt: &R, rows: &[(Scalar, Num, &[u8])]) {
    for &(kind, number, bytes) in rows {
        assert!(rt; is_sized(kind));
        let mut out = [9u8; 8];
        let count = usize::from(encode(kind, number, &mut out));
        assert!(rt; out.as_slice().starts_with(bytes), "{number}");
        assert!(rt; count == bytes.len(), "{number}");
        assert!(rt; out[7] == 9 || count == 8, "{number}");
    }
}

#[test]
fn tokens_are_written_low_byte_first(rt: HostRuntime) {
    hold_written(&rt, WRITTEN);
}
