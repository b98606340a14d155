//! The objects in memory: happy paths, failing calls, what is lacking, and room that is used up.

ghost use Rattle.std.specs.Prelude.{◌≡◌, ◌≤◌, ◌<◌, ◌∷◌, ℕ, [], true, Some, None, length, replicate};
ghost use Rattle.rvc_io.specs.MemFeeds.{FeedsState, feed_is_open};
ghost use Rattle.rvc_io.specs.MemDrains.{channel_is_open};

use rvc_io::{
    Drains, Failed, Feeds, Library, MemDrains, MemFeeds, MemLibrary, ReadAnswer, names_are_distinct,
};
use std::alloc::{AllocError, Global};
use std::process::Abort;

/// A file of this name.
fn file(alloc: Global, name: &str, bytes: &[u8]) -> Result<(String, Vec<u8>), AllocError> {
    Ok((
        String::from_str(alloc, name)?,
        Vec::from_slice(alloc, bytes)?,
    ))
}

/// Two files: `a` of seven bytes, and `b`, which is empty.
fn two_files(alloc: Global) -> Result<Vec<(String, Vec<u8>)>, AllocError> {
    let mut files = Vec::new(alloc);
    files.push(file(alloc, "a", &[1, 2, 3, 4, 5, 6, 7])?)?;
    files.push(file(alloc, "b", &[])?)?;
    Ok(files)
}

/// Reads these names one after another.
fn hold_reads<R: Abort, L: Library>(
    rt: &R,
    alloc: Global,
    library: &mut L,
    rows: &[(&str, ReadAnswer, &[u8])],
) {
    for &(name, answer, bytes) in rows {
        let mut out = Vec::new(alloc);
        assert!(rt; library.read(alloc, name, &mut out) == answer, "{name}");
        assert!(rt; out.as_slice() == bytes, "{name}");
    }
}

const READS: &[(&str, ReadAnswer, &[u8])] = &[
    ("a", ReadAnswer::Found, &[1, 2, 3, 4, 5, 6, 7]),
    ("a", ReadAnswer::Failed, &[]),
    ("c", ReadAnswer::Missing, &[]),
    ("b", ReadAnswer::Found, &[]),
];

#[test]
fn a_library_reads_by_name(rt: HostRuntime) {
    let files = two_files(rt.alloc()).expect(&rt, "files");
    assert!(rt; names_are_distinct(&files));
    let failing = vec![in rt.alloc(); 2].expect(&rt, "a list");
    let mut library = MemLibrary::new(files, failing);
    hold_reads(&rt, rt.alloc(), &mut library, READS);
}

/// One file of so many bytes.
fn long_file(alloc: Global, count: usize) -> Result<Vec<(String, Vec<u8>)>, AllocError> {
    let mut files = Vec::new(alloc);
    files.push((String::from_str(alloc, "a")?, vec![in alloc; 7; count]?))?;
    Ok(files)
}

/// How a file of so many bytes is read, and how many bytes come.
fn read_long<R: Abort>(rt: &R, alloc: Global, count: usize, answer: ReadAnswer, came: usize) {
    let files = long_file(alloc, count).expect(rt, "a file");
    assert!(rt; names_are_distinct(&files));
    let mut library = MemLibrary::new(files, Vec::new(alloc));
    let mut out = Vec::new(alloc);
    assert!(rt; library.read(alloc, "a", &mut out) == answer);
    assert!(rt; out.len() == came);
}

#[test]
fn a_long_file_is_refused(rt: HostRuntime) {
    read_long(&rt, rt.alloc(), 1_048_576, ReadAnswer::Found, 1_048_576);
    read_long(&rt, rt.alloc(), 1_048_577, ReadAnswer::TooLong, 0);
}

#[test]
fn one_name_twice_is_seen(rt: HostRuntime) {
    let mut files = two_files(rt.alloc()).expect(&rt, "files");
    let again = file(rt.alloc(), "a", &[]).expect(&rt, "a file");
    files.push(again).expect(&rt, "a file more");
    assert!(rt; !names_are_distinct(&files));
}

/// Two feeds of the two files.
fn two_feeds<R: Abort>(rt: &R, alloc: Global, failing: u64, step: u32) -> MemFeeds
    requires { 0 < step }
    ensures { result.left ≡ replicate 2 None }
{
    let files = two_files(alloc).expect(rt, "files");
    assert!(rt; names_are_distinct(&files));
    let failing = vec![in alloc; failing].expect(rt, "a list");
    MemFeeds::new(alloc, files, failing, step, 2).expect(rt, "feeds")
}

/// Pulls into a buffer of `room` bytes, to which `want` comes.
fn pull<R: Abort>(rt: &R, feeds: &mut MemFeeds, feed: u32, room: usize, want: &[u8])
    requires open { feed_is_open feeds.old feed ≡ true }
    requires some { 0 < room }
    requires fits { room ≤ 8 }
    ensures { (other : ℕ) → feed_is_open feeds.new other ≡ feed_is_open feeds.old other }
{
    let mut buf = [0u8; 8];
    let count = feeds.pull(feed, &mut buf[..room]).expect(rt, "bytes");
    assert!(rt; &buf[..count] == want);
}

/// Pulls where that fails.
fn fail_pull<R: Abort>(rt: &R, feeds: &mut MemFeeds, feed: u32)
    requires { feed_is_open feeds.old feed ≡ true }
    ensures { (other : ℕ) → feed_is_open feeds.new other ≡ feed_is_open feeds.old other }
{
    let mut buf = [0u8; 8];
    assert!(rt; feeds.pull(feed, &mut buf) == Err(Failed));
}

#[test]
fn a_feed_gives_what_its_step_lets(rt: HostRuntime) {
    let mut feeds = two_feeds(&rt, rt.alloc(), 3, 3);
    feeds.open(0, "a").expect(&rt, "a feed");
    pull(&rt, &mut feeds, 0, 8, &[1, 2, 3]);
    fail_pull(&rt, &mut feeds, 0);
    pull(&rt, &mut feeds, 0, 2, &[4, 5]);
    pull(&rt, &mut feeds, 0, 8, &[6, 7]);
    pull(&rt, &mut feeds, 0, 8, &[]);
}

#[test]
fn a_feed_of_no_file_fails(rt: HostRuntime) {
    let mut feeds = two_feeds(&rt, rt.alloc(), 0, 3);
    assert!(rt; feeds.open(1, "c") == Err(Failed));
    assert!(rt; feeds.open(2, "a") == Err(Failed));
}

#[test]
fn one_name_serves_two_feeds(rt: HostRuntime) {
    let mut feeds = two_feeds(&rt, rt.alloc(), 0, 1);
    feeds.open(1, "a").expect(&rt, "a feed");
    pull(&rt, &mut feeds, 1, 8, &[1]);
    feeds.open(0, "a").expect(&rt, "a feed");
    pull(&rt, &mut feeds, 0, 8, &[1]);
    pull(&rt, &mut feeds, 1, 8, &[2]);
}

/// Puts a piece, of which so many bytes are taken.
fn put<R: Abort>(rt: &R, drains: &mut MemDrains, channel: u32, piece: &[u8], taken: usize)
    requires open { channel_is_open drains.old channel ≡ true }
    requires some { 0 < length piece.now }
    ensures { (other : ℕ) → channel_is_open drains.new other ≡ channel_is_open drains.old other }
{
    assert!(rt; drains.put(channel, piece) == Ok(taken));
}

/// Puts a byte where that fails.
fn fail_put<R: Abort>(rt: &R, drains: &mut MemDrains, channel: u32)
    requires { channel_is_open drains.old channel ≡ true }
    ensures { (other : ℕ) → channel_is_open drains.new other ≡ channel_is_open drains.old other }
{
    assert!(rt; drains.put(channel, &[4]) == Err(Failed));
}

/// What the channels hold.
fn hold_bytes<R: Abort>(rt: &R, drains: &MemDrains, rows: &[(u32, &[u8])]) {
    for &(channel, bytes) in rows {
        assert!(rt; drains.held(channel) == bytes, "{channel}");
    }
}

#[test]
fn channels_hold_what_was_put(rt: HostRuntime) {
    let alloc = rt.alloc();
    let failing = vec![in alloc; 4].expect(&rt, "a list");
    let mut drains = MemDrains::new(alloc, failing, 3, 2, 5).expect(&rt, "channels");
    put(&rt, &mut drains, 0, &[1, 2, 3, 4], 3);
    drains.open(1, "out").expect(&rt, "a channel");
    put(&rt, &mut drains, 1, &[9], 1);
    fail_put(&rt, &mut drains, 0);
    put(&rt, &mut drains, 0, &[4, 5, 6], 2);
    fail_put(&rt, &mut drains, 0);
    hold_bytes(&rt, &drains, &[(0, &[1, 2, 3, 4, 5]), (1, &[9]), (2, &[])]);
}

#[test]
fn a_channel_past_the_last_fails_to_open(rt: HostRuntime) {
    let alloc = rt.alloc();
    let mut drains = MemDrains::new(alloc, Vec::new(alloc), 3, 2, 5).expect(&rt, "channels");
    assert!(rt; drains.open(2, "other") == Err(Failed));
    hold_bytes(&rt, &drains, &[(0, &[]), (2, &[])]);
}
