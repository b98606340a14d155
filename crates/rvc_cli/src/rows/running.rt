//! The top call over objects in memory.

use kit_commands::{Row, begins, drains, feeds, left, library, words};
use rvc_io::{Gate, MemDrains, OpenGate};
use rvc_top::{Status, rvc};
use std::alloc::Global;
use std::process::Abort;
use std::thread::Threads;

/// How many bytes a channel of most rows may hold.
pub(crate) const ROOM: u32 = 32_768;

/// How a row ended, and the channels with what they hold.
#[derive(Drop)]
pub(crate) struct Left {
    pub status: Status,
    pub drains: MemDrains,
}

/// Runs a row past a gate. A channel may hold so many bytes.
pub(crate) fn run_row<R: Abort + Threads + Sync, G: Gate>(
    rt: &R,
    alloc: Global,
    row: &Row<'_>,
    room: u32,
    gate: &G,
) -> Left {
    let words = words(alloc, row.words).expect(rt, "words");
    let mut library = library(alloc, row.own, OTHERS, row.read).expect(rt, "a library");
    let mut feeds = feeds(alloc, row.trace, row.feed, row.step).expect(rt, "feeds");
    let mut drains = drains(alloc, row.channel, row.step, room).expect(rt, "channels");
    let status = rvc(
        rt,
        alloc,
        words.as_slice(),
        &mut library,
        &mut feeds,
        &mut drains,
        gate,
    );
    Left { status, drains }
}

/// Stops unless what a row left begins so: `REPORT | TRACE | OUTPUT | STATUS`, what the channels hold (`left`), in which
/// `/` ends each line, and the exit status with its name.
pub(crate) fn hold_told(rt: &impl Abort, alloc: Global, row: &Row<'_>, found: &Left, told: &str) {
    let mut ended = left(alloc, &found.drains).expect(rt, "a text");
    let status = found.status;
    write!(ended, " | {} {status:?}", status.code()).expect(rt, "a text");
    let line = row.words;
    assert!(rt; begins(ended.as_str(), told), "{line}: {ended}");
}

/// Runs a row past a gate that holds nobody, and stops unless what it left begins so.
pub(crate) fn hold_left<R: Abort + Threads + Sync>(
    rt: &R,
    alloc: Global,
    row: &Row<'_>,
    told: &str,
) {
    let found = run_row(rt, alloc, row, ROOM, &OpenGate);
    hold_told(rt, alloc, row, &found, told);
}

/// Files of every row: an actor that isn't certified, since it adds two tokens where there are two; a network of it behind
/// `Inc`; and networks of `Inc`, of two in a row, of one, and of two side by side.
const OTHERS: &str =
    "Two.cal actor Two() uint(size=8) In ==> uint(size=8) Out : hi: action In:[a, b] ==> Out:[a + b] end lo: action In:[a] ==> Out:[a] end priority hi > lo; end end
+ Net.xdf <XDF name='Net'><Port kind='Input' name='In'><Type name='uint'><Entry kind='Expr' name='size'><Expr kind='Literal' literal-kind='Integer' value='8'/></Entry></Type></Port><Port kind='Output' name='Out'><Type name='uint'><Entry kind='Expr' name='size'><Expr kind='Literal' literal-kind='Integer' value='8'/></Entry></Type></Port><Instance id='a'><Class name='Inc'/></Instance><Instance id='b'><Class name='Two'/></Instance><Connection src='' src-port='In' dst='a' dst-port='In'/><Connection src='a' src-port='Out' dst='b' dst-port='In'/><Connection src='b' src-port='Out' dst='' dst-port='Out'/></XDF>
+ Twice.xdf <XDF name='Twice'><Port kind='Input' name='In'><Type name='uint'><Entry kind='Expr' name='size'><Expr kind='Literal' literal-kind='Integer' value='8'/></Entry></Type></Port><Port kind='Output' name='Out'><Type name='uint'><Entry kind='Expr' name='size'><Expr kind='Literal' literal-kind='Integer' value='8'/></Entry></Type></Port><Instance id='a'><Class name='Inc'/></Instance><Instance id='b'><Class name='Inc'/></Instance><Connection src='' src-port='In' dst='a' dst-port='In'/><Connection src='a' src-port='Out' dst='b' dst-port='In'/><Connection src='b' src-port='Out' dst='' dst-port='Out'/></XDF>
+ One.xdf <XDF name='One'><Port kind='Input' name='In'><Type name='uint'><Entry kind='Expr' name='size'><Expr kind='Literal' literal-kind='Integer' value='8'/></Entry></Type></Port><Port kind='Output' name='Out'><Type name='uint'><Entry kind='Expr' name='size'><Expr kind='Literal' literal-kind='Integer' value='8'/></Entry></Type></Port><Instance id='a'><Class name='Inc'/></Instance><Connection src='' src-port='In' dst='a' dst-port='In'/><Connection src='a' src-port='Out' dst='' dst-port='Out'/></XDF>
+ Both.xdf <XDF name='Both'><Port kind='Input' name='In'><Type name='uint'><Entry kind='Expr' name='size'><Expr kind='Literal' literal-kind='Integer' value='8'/></Entry></Type></Port><Port kind='Output' name='Out'><Type name='uint'><Entry kind='Expr' name='size'><Expr kind='Literal' literal-kind='Integer' value='8'/></Entry></Type></Port><Port kind='Output' name='Other'><Type name='uint'><Entry kind='Expr' name='size'><Expr kind='Literal' literal-kind='Integer' value='8'/></Entry></Type></Port><Instance id='a'><Class name='Inc'/></Instance><Instance id='b'><Class name='Inc'/></Instance><Connection src='' src-port='In' dst='a' dst-port='In'/><Connection src='' src-port='In' dst='b' dst-port='In'/><Connection src='a' src-port='Out' dst='' dst-port='Out'/><Connection src='b' src-port='Out' dst='' dst-port='Other'/></XDF>";
