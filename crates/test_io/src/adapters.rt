//! Each adapter once on real files, in a folder of its own where the test runs.

ghost use Rattle.std.specs.Prelude.{◌≡◌, ◌<◌, ℕ, true, false, length};
ghost use Rattle.rvc_real.specs.Open.{feed_is_open, channel_is_open};

use rvc_io::{Drains, Failed, Feeds, Library, MAX_FILE_BYTES, ReadAnswer};
use rvc_real::{FileDrains, FileFeeds, FolderLibrary, SeenFiles};
use std::fs;
use std::os::unix::fs::symlink;
use std::process::Abort;
use std::test::Fail;

const FOLDER: &str = "rvc_real_library";

/// A file of so many zero bytes.
fn write_zeros(rt: &HostRuntime, path: &str, bytes: usize) -> Result<(), Fail> {
    let zeros = vec![in rt.alloc(); 0u8; bytes]?;
    fs::write(rt, path, zeros.as_slice())?;
    Ok(())
}

/// The folder with its files.
fn write_folder(rt: &HostRuntime) -> Result<(), Fail> {
    fs::create_dir(rt, FOLDER)?;
    fs::create_dir(rt, "rvc_real_library/folder")?;
    fs::write(rt, "rvc_real_library/three", b"abc".as_slice())?;
    fs::write(rt, "rvc_real_library/empty", b"".as_slice())?;
    write_zeros(rt, "rvc_real_library/full", MAX_FILE_BYTES)?;
    write_zeros(rt, "rvc_real_library/longer", MAX_FILE_BYTES + 1)
}

/// Reads `name`, and says how that went and how many bytes there were.
fn read(
    rt: &HostRuntime,
    library: &mut FolderLibrary<'_, &HostRuntime>,
    name: &str,
) -> (ReadAnswer, usize) {
    let mut out = Vec::new(rt.alloc());
    let answer = library.read(rt.alloc(), name, &mut out);
    (answer, out.len())
}

/// Stops unless the names are read so.
fn hold_reads(
    rt: &impl Abort,
    host: &HostRuntime,
    library: &mut FolderLibrary<'_, &HostRuntime>,
    rows: &[(&str, ReadAnswer, usize)],
) {
    for &(name, answer, bytes) in rows {
        let found = read(host, library, name);
        assert!(rt; found == (answer, bytes), "{name}");
    }
}

/// Names, how they are read, and how many bytes they have.
const READS: &[(&str, ReadAnswer, usize)] = &[
    ("rvc_real_library/three", ReadAnswer::Found, 3),
    ("rvc_real_library/empty", ReadAnswer::Found, 0),
    ("rvc_real_library/full", ReadAnswer::Found, MAX_FILE_BYTES),
    ("rvc_real_library/longer", ReadAnswer::TooLong, 0),
    ("rvc_real_library/none", ReadAnswer::Missing, 0),
    ("rvc_real_library/three/within", ReadAnswer::Missing, 0),
    (
        "rvc_real_library/aaaaaaaaaaaaaaaaaaaaaaaaaaaaaaaaaaaaaaaaaaaaaaaaaaaaaaaaaaaaaaaaaaaaaaaaaaaaaaaaaaaaaaaaaaaaaaaaaaaaaaaaaaaaaaaaaaaaaaaaaaaaaaaaaaaaaaaaaaaaaaaaaaaaaaaaaaaaaaaaaaaaaaaaaaaaaaaaaaaaaaaaaaaaaaaaaaaaaaaaaaaaaaaaaaaaaaaaaaaaaaaaaaaaaaaaaaaaaaaaaaaaaaaaaaaa.cal",
        ReadAnswer::Missing,
        0,
    ),
    ("rvc_real_library/folder", ReadAnswer::Failed, 0),
    ("rvc_real_library/folder/../three", ReadAnswer::Missing, 0),
    ("/dev/null", ReadAnswer::Missing, 0),
];

/// Stops unless the file has these bytes.
fn hold_bytes(
    rt: &impl Abort,
    host: &HostRuntime,
    library: &mut FolderLibrary<'_, &HostRuntime>,
    name: &str,
    want: &[u8],
) {
    let mut out = Vec::new(host.alloc());
    let answer = library.read(host.alloc(), name, &mut out);
    assert!(rt;
        answer == ReadAnswer::Found && out.as_slice() == want,
        "{name}"
    );
}

/// Reads the files of the folder.
fn read_folder(rt: &impl Abort, host: &HostRuntime) {
    let seen = SeenFiles::new(host.alloc());
    let mut library = FolderLibrary::new(host, &seen);
    hold_reads(rt, host, &mut library, READS);
    hold_bytes(rt, host, &mut library, "rvc_real_library/three", b"abc");
}

#[test]
fn reads_below_the_current_folder(rt: HostRuntime) -> Result<(), Fail> {
    let _ = fs::remove_dir_all(&rt, FOLDER);
    write_folder(&rt)?;
    read_folder(&rt, &rt);
    fs::remove_dir_all(&rt, FOLDER)?;
    Ok(())
}

/// Pulls into two bytes, to which these come.
fn pull(rt: &impl Abort, feeds: &mut FileFeeds<'_, &HostRuntime>, feed: u32, want: &[u8])
    requires { feed_is_open feeds.old feed ≡ true }
    ensures { (other : ℕ) → feed_is_open feeds.new other ≡ feed_is_open feeds.old other }
{
    let mut buffer = [0u8; 2];
    let Ok(count) = feeds.pull(feed, &mut buffer) else {
        panic!(rt; "feed {feed} fails")
    };
    assert!(rt; &buffer[..count] == want);
}

/// Pulls a file of three bytes by two feeds.
fn pull_three(rt: &impl Abort, host: &HostRuntime) {
    let seen = SeenFiles::new(host.alloc());
    let mut feeds = FileFeeds::new(host, &seen, host.alloc());
    assert!(rt; feeds.open(3, "rvc_real_no_feed") == Err(Failed));
    assert!(rt; feeds.open(3, "rvc_real_feed") == Ok(()));
    assert!(rt; feeds.open(1, "rvc_real_feed") == Ok(()));
    pull(rt, &mut feeds, 3, b"ab");
    pull(rt, &mut feeds, 3, b"c");
    pull(rt, &mut feeds, 3, b"");
    pull(rt, &mut feeds, 1, b"ab");
}

#[test]
fn pulls_from_files(rt: HostRuntime) -> Result<(), Fail> {
    fs::write(&rt, "rvc_real_feed", b"abc".as_slice())?;
    pull_three(&rt, &rt);
    fs::remove_file(&rt, "rvc_real_feed")?;
    Ok(())
}

/// Puts a piece, which is taken whole.
fn put(rt: &impl Abort, drains: &mut FileDrains<'_, &HostRuntime>, channel: u32, piece: &[u8])
    requires open { channel_is_open drains.old channel ≡ true }
    requires some { 0 < length piece.now }
    ensures { (other : ℕ) → channel_is_open drains.new other ≡ channel_is_open drains.old other }
{
    let Ok(count) = drains.put(channel, piece) else {
        panic!(rt; "channel {channel} fails")
    };
    assert!(rt; count == piece.len());
}

/// Stops unless a file has this text.
fn hold_text(rt: &impl Abort, host: &HostRuntime, path: &str, want: &str) {
    let Ok(text) = fs::read_to_string(host, path) else {
        panic!(rt; "no file {path}")
    };
    assert!(rt; text.as_str() == want);
}

/// Puts pieces into standard output and a file, and one into a file that takes none.
fn put_pieces(rt: &impl Abort, host: &HostRuntime) {
    let seen = SeenFiles::new(host.alloc());
    let mut drains = FileDrains::new(host, &seen, host.alloc());
    put(rt, &mut drains, 0, b"out\n");
    assert!(rt; drains.open(2, "rvc_real_no_folder/drain") == Err(Failed));
    assert!(rt; drains.open(2, "rvc_real_drain") == Ok(()));
    put(rt, &mut drains, 2, b"ab");
    put(rt, &mut drains, 2, b"c");
    hold_text(rt, host, "rvc_real_drain", "abc");
    assert!(rt; drains.open(1, "/dev/full") == Ok(()));
    assert!(rt; drains.put(1, b"a") == Err(Failed));
}

#[test]
fn puts_into_files_and_standard_output(rt: HostRuntime) -> Result<(), Fail> {
    fs::write(&rt, "rvc_real_drain", b"before".as_slice())?;
    put_pieces(&rt, &rt);
    fs::remove_file(&rt, "rvc_real_drain")?;
    Ok(())
}

/// The files of a run, each of three bytes, and other names of them.
fn write_seen(rt: &HostRuntime) -> Result<(), Fail> {
    fs::create_dir(rt, "rvc_real_seen")?;
    fs::write(rt, "rvc_real_seen/source", b"abc".as_slice())?;
    fs::write(rt, "rvc_real_seen/input", b"abc".as_slice())?;
    fs::write(rt, "rvc_real_seen/unseen", b"abc".as_slice())?;
    fs::hard_link(rt, "rvc_real_seen/source", "rvc_real_seen/twin")?;
    symlink(rt, "input", "rvc_real_seen/link")?;
    Ok(())
}

/// Stops unless a file can't be opened as channel 2, and keeps its text.
fn hold_refused(
    rt: &impl Abort,
    host: &HostRuntime,
    drains: &mut FileDrains<'_, &HostRuntime>,
    name: &str,
    text: &str,
)
    requires { channel_is_open drains.old 2 ≡ false }
    ensures { channel_is_open drains.new 2 ≡ false }
{
    assert!(rt; drains.open(2, name) == Err(Failed));
    hold_text(rt, host, name, text);
}

/// The same for each name of files that the run has seen.
fn hold_all_refused(rt: &impl Abort, host: &HostRuntime, drains: &mut FileDrains<'_, &HostRuntime>)
    requires { channel_is_open drains.old 2 ≡ false }
    ensures { channel_is_open drains.new 2 ≡ false }
{
    hold_refused(rt, host, drains, "rvc_real_seen/source", "abc");
    hold_refused(rt, host, drains, "rvc_real_seen/twin", "abc");
    hold_refused(rt, host, drains, "rvc_real_seen/input", "abc");
    hold_refused(rt, host, drains, "rvc_real_seen/link", "abc");
    hold_refused(
        rt,
        host,
        drains,
        "rvc_real_seen/../rvc_real_seen/input",
        "abc",
    );
}

/// Puts into a file that wasn't seen, which is seen then, and into a device that two channels share.
fn put_unseen(rt: &impl Abort, host: &HostRuntime, seen: &SeenFiles) {
    let mut drains = FileDrains::new(host, seen, host.alloc());
    assert!(rt; drains.open(1, "rvc_real_seen/unseen") == Ok(()));
    put(rt, &mut drains, 1, b"a");
    assert!(rt; drains.open(2, "rvc_real_seen/unseen") == Err(Failed));
    hold_text(rt, host, "rvc_real_seen/unseen", "a");
    assert!(rt; drains.open(2, "/dev/null") == Ok(()));
    assert!(rt; drains.open(3, "/dev/null") == Ok(()));
}

/// Opens as channels what was read as a source and what a feed is.
fn open_seen(rt: &impl Abort, host: &HostRuntime) {
    let seen = SeenFiles::new(host.alloc());
    let mut library = FolderLibrary::new(host, &seen);
    hold_bytes(rt, host, &mut library, "rvc_real_seen/source", b"abc");
    let mut feeds = FileFeeds::new(host, &seen, host.alloc());
    assert!(rt; feeds.open(0, "rvc_real_seen/input") == Ok(()));
    let mut drains = FileDrains::new(host, &seen, host.alloc());
    hold_all_refused(rt, host, &mut drains);
    put_unseen(rt, host, &seen);
}

#[test]
fn empties_no_file_that_was_seen(rt: HostRuntime) -> Result<(), Fail> {
    let _ = fs::remove_dir_all(&rt, "rvc_real_seen");
    write_seen(&rt)?;
    open_seen(&rt, &rt);
    fs::remove_dir_all(&rt, "rvc_real_seen")?;
    Ok(())
}
