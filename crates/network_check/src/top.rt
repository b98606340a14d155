//! The top that the words name.

ghost use Rattle.std.specs.Prelude.{◌≡◌};
ghost use Rattle.cal_files.specs.FileNames.{class_of};
ghost use Rattle.fnl_files.specs.Views.{asked_of};
ghost use Rattle.network_check.specs.Top.{ending_of, top_asked};

use fnl_files::FileKind;

/// What stands behind the first dot of a name.
fn ending_of(file: &str) -> &str
    ensures { result.now ≡ ending_of file.now }
{
    match file.split_once('.') {
        Some((_, ending)) => ending,
        None => "",
    }
}

/// Which file of its class a top is: that of its network, or that of its actor if it has another ending.
pub fn kind_of(top: &str) -> FileKind
    ensures { asked_of (class_of top.now) result ≡ top_asked top.now }
{
    if ending_of(top) == "xdf" {
        FileKind::Network
    } else {
        FileKind::Actor
    }
}
