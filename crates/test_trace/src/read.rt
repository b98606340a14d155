//! Lines of a trace that are read, and read back once they were written.

use arrayvec::ArrayVec;
use rvc_base::Trap;
use std::alloc::{AllocError, Global};
use std::process::Abort;
use trace_text::{Line, LineReader, Step2, write_front, write_line};

/// A text, cut at the first of a mark.
fn cut<'a>(text: &'a str, mark: &str) -> (&'a str, &'a str) {
    text.split_once(mark).unwrap_or((text, ""))
}

/// The line that a reader tells at the line feed behind a text, if it wants more before.
fn line_of(text: &str) -> Option<Line> {
    let mut reader = LineReader::new();
    for byte in text.as_bytes() {
        if reader.next(*byte) != Step2::More {
            return None;
        }
    }
    match reader.next(b'\n') {
        Step2::Line(line) => Some(line),
        _ => None,
    }
}

/// That line as `Debug` prints it.
fn told(alloc: Global, text: &str) -> Result<String, AllocError> {
    match line_of(text) {
        Some(line) => format!(in alloc; "{line:?}"),
        None => String::from_str(alloc, "no line"),
    }
}

/// Stops unless the text of a row is that of its line.
fn hold_line(rt: &impl Abort, alloc: Global, row: &str) {
    let (text, want) = cut(row, "\n= ");
    let found = told(alloc, text).expect(rt, "a text");
    let holds = found.as_str() == want;
    assert!(rt; holds, "{text} tells {found}");
}

#[test]
fn lines_of_the_table(rt: HostRuntime) {
    for row in LINES.split("\n# ") {
        if !row.is_empty() {
            hold_line(&rt, rt.alloc(), row);
        }
    }
}

/// Texts without their line feed, and their lines.
const LINES: &str = "
# rvc-trace 1 0 0
= Header { instances: 0, links: 0, grow: 0 }
# rvc-trace 1 12 305
= Header { instances: 12, links: 305, grow: 0 }
# rvc-trace 1 4294967295 4294967295
= Header { instances: 4294967295, links: 4294967295, grow: 0 }
# rvc-trace 2 3 5 4
= Header { instances: 3, links: 5, grow: 4 }
# rvc-trace 2 0 0 4294967295
= Header { instances: 0, links: 0, grow: 4294967295 }
# g 3 4
= Grow { link: 3, capacity: 4 }
# g 4294967295 4294967295
= Grow { link: 4294967295, capacity: 4294967295 }
# i 0 Inc Inc
= Inst { inst: 0 }
# i 4294967295 a/_1/b_2 p.q9._
= Inst { inst: 4294967295 }
# i 10 begin end
= Inst { inst: 10 }
# f 0 0
= Fire { inst: 0, action: 0 }
# f 4294967295 65535
= Fire { inst: 4294967295, action: 65535 }
# r
= Deliver
# q
= Quiet
# b
= Budget
# t 1 2 Overflow
= Trap { inst: 1, action: 2, trap: Overflow }
# t 1 2 DivideByZero
= Trap { inst: 1, action: 2, trap: DivideByZero }
# t 1 2 IndexRange
= Trap { inst: 1, action: 2, trap: IndexRange }
# t 1 2 ShiftRange
= Trap { inst: 1, action: 2, trap: ShiftRange }
# t 4294967295 65535 TurnLimit
= Trap { inst: 4294967295, action: 65535, trap: TurnLimit }
# s 7 8 9
= Stall { inst: 7, action: 8, link: 9 }
# s 4294967295 65535 4294967295
= Stall { inst: 4294967295, action: 65535, link: 4294967295 }";

/// Whether a reader wants more up to the byte at `place` of a text and a line feed, and finds bad what stands there and
/// behind it.
fn is_bad_at(text: &str, place: usize) -> bool {
    let mut reader = LineReader::new();
    for (at, byte) in text.as_bytes().iter().enumerate() {
        let wanted = if at < place { Step2::More } else { Step2::Bad };
        if reader.next(*byte) != wanted {
            return false;
        }
    }
    place <= text.len() && reader.next(b'\n') == Step2::Bad
}

/// Stops unless the text of a row is bad from its place on.
fn hold_bad(rt: &impl Abort, row: &str) {
    let (place, text) = cut(row, " ");
    let place = place.parse().unwrap_or(usize::MAX);
    assert!(rt; is_bad_at(text, place), "{row}");
}

#[test]
fn bytes_that_can_not_follow(rt: HostRuntime) {
    for row in BAD.split("\n# ") {
        if !row.is_empty() {
            hold_bad(&rt, row);
        }
    }
}

/// The place of the first byte that can't follow, and a text without its line feed: too great numbers, leading zeros and
/// signs, blanks, other ends of lines, the first line, letters and names.
const BAD: &str = "
# 21 rvc-trace 1 4294967296 0
# 23 rvc-trace 1 0 4294967296
# 22 rvc-trace 1 10000000000 0
# 11 i 4294967296 a b
# 11 f 4294967296 0
# 11 f 99999999999 0
# 8 f 0 65536
# 9 f 0 655350
# 11 t 4294967296 0 Overflow
# 8 t 0 65536 Overflow
# 11 s 4294967296 0 0
# 8 s 0 65536 0
# 15 s 0 0 4294967296
# 13 rvc-trace 1 00 0
# 3 i 01 a b
# 3 f 00 0
# 5 f 0 01
# 5 t 0 00 Overflow
# 7 s 0 0 007
# 2 f -1 0
# 4 f 0 +1
# 3 f 0x1 0
# 0  r
# 1 r 
# 1 f0 0
# 2 f  0 0
# 4 f 0  0
# 5 f 0 0 
# 1 f\t0 0
# 10 rvc-trace  1 0 0
# 12 rvc-trace 1  0 0
# 4 i 0  a b
# 6 i 0 a  b
# 7 i 0 a b 
# 6 t 0 0  Overflow
# 0 
# 0 \r
# 1 r\r
# 5 f 0 0\r
# 7 i 0 a b\r
# 14 t 0 0 Overflow\r
# 1 f
# 2 f 
# 3 f 0
# 4 f 0 
# 5 f 0 0 0
# 5 s 0 0
# 5 t 0 0
# 6 t 0 0 
# 3 rvc
# 9 rvc-trace
# 11 rvc-trace 1
# 15 rvc-trace 2 0 0
# 16 rvc-trace 2 0 0 0
# 25 rvc-trace 2 0 0 4294967296
# 17 rvc-trace 2 0 0 4 4
# 10 rvc-trace 3 0 0
# 11 rvc-trace 10 0 0
# 13 rvc-trace 1 0
# 15 rvc-trace 1 0 0 0
# 0 RVC-trace 1 0 0
# 0 h
# 1 g
# 3 g 3
# 5 g 3 4 5
# 1 qq
# 6 t 0 0 overflow
# 12 t 0 0 Overfl
# 14 t 0 0 Overflows
# 11 t 0 0 IndexBound
# 11 t 0 0 ShiftLimit
# 10 t 0 0 TurnRange
# 6 t 0 0 Memory
# 4 i 0 1a b
# 4 i 0 /a b
# 6 i 0 a//b c
# 6 i 0 a/ b
# 5 i 0 a.b c
# 5 i 0 a-b c
# 5 i 0 a
# 6 i 0 a 
# 7 i 0 a b/c
# 6 i 0 a .b
# 8 i 0 a b.
# 8 i 0 a b..c
# 7 i 0 a b c
# 4 i 0 ä b";

/// What a reader says of each byte: `.` for more, `l` for a line, `x` for what is bad.
fn says(text: &[u8], wanted: &[u8]) -> bool {
    let mut reader = LineReader::new();
    for (byte, want) in text.iter().zip(wanted) {
        let said = match reader.next(*byte) {
            Step2::More => b'.',
            Step2::Line(_) => b'l',
            Step2::Bad => b'x',
        };
        if said != *want {
            return false;
        }
    }
    text.len() == wanted.len()
}

/// Texts, and what is said of each byte.
const SAID: &[(&str, &str)] = &[
    ("r\nf 0 0\nq\n", ".l.....l.l"),
    ("x\nr\n", "xx.l"),
    ("r r\nr\n", ".xxx.l"),
    ("\n\nb\n", "xx.l"),
    ("f 0 0r\nq\n", ".....xx.l"),
    ("r\n\nq\n", ".lx.l"),
];

/// Stops unless of each byte of the texts is said what is wanted.
fn hold_said(rt: &impl Abort, rows: &[(&str, &str)]) {
    for &(text, wanted) in rows {
        assert!(rt; says(text.as_bytes(), wanted.as_bytes()), "{text}");
    }
}

#[test]
fn behind_each_line_feed_a_line_begins(rt: HostRuntime) {
    hold_said(&rt, SAID);
}

fn fire(inst: u32, action: u16) -> Line {
    Line::Fire { inst, action }
}

fn trap(inst: u32, action: u16, trap: Trap) -> Line {
    Line::Trap { inst, action, trap }
}

fn stall(inst: u32, action: u16, link: u32) -> Line {
    Line::Stall { inst, action, link }
}

fn header(instances: u32, links: u32) -> Line {
    growing(instances, links, 0)
}

fn growing(instances: u32, links: u32, grow: u32) -> Line {
    Line::Header {
        instances,
        links,
        grow,
    }
}

fn grow(link: u32, capacity: u32) -> Line {
    Line::Grow { link, capacity }
}

/// A line of each kind, with each trap.
fn lines_with(inst: u32, action: u16, link: u32) -> [Line; 14] {
    [
        header(inst, link),
        growing(inst, link, inst),
        grow(link, inst),
        Line::Inst { inst },
        Line::Deliver,
        fire(inst, action),
        trap(inst, action, Trap::Overflow),
        trap(inst, action, Trap::DivideByZero),
        trap(inst, action, Trap::IndexRange),
        trap(inst, action, Trap::ShiftRange),
        trap(inst, action, Trap::TurnLimit),
        stall(inst, action, link),
        Line::Quiet,
        Line::Budget,
    ]
}

/// Writes a line, that of an instance with a path and a class. False where there is no room.
fn write_whole(line: Line, text: &mut ArrayVec<u8, 1024>) -> bool {
    let mut out = ArrayVec::new();
    let mut names: &[u8] = b"";
    match line {
        Line::Inst { inst } => {
            write_front(inst, &mut out);
            names = b"top/Z_9/_a p.q.Azaz09\n";
        }
        _ => write_line(&line, &mut out),
    }
    text.try_extend_from_slice(out.as_slice()).is_ok() && text.try_extend_from_slice(names).is_ok()
}

/// Whether a reader takes `line` from the text at its last byte, and wants more before.
fn is_line(text: &[u8], line: Line) -> bool {
    let mut reader = LineReader::new();
    let mut rest = text.len();
    for byte in text {
        rest = rest.saturating_sub(1);
        let wanted = if rest == 0 {
            Step2::Line(line)
        } else {
            Step2::More
        };
        if reader.next(*byte) != wanted {
            return false;
        }
    }
    !text.is_empty()
}

/// Whether a line that was written is read back.
fn comes_back(line: Line) -> bool {
    let mut text = ArrayVec::new();
    write_whole(line, &mut text) && is_line(text.as_slice(), line)
}

/// Whether a reader tells just these lines of a text, and nothing is bad.
fn tells(text: &[u8], lines: &[Line]) -> bool {
    let mut reader = LineReader::new();
    let mut told = 0;
    for byte in text {
        match reader.next(*byte) {
            Step2::More => {}
            Step2::Line(line) => {
                if told >= lines.len() || lines[told] != line {
                    return false;
                }
                told += 1;
            }
            Step2::Bad => return false,
        }
    }
    told == lines.len()
}

/// Whether lines that were written one after another are read back.
fn come_back(lines: &[Line]) -> bool {
    let mut text = ArrayVec::new();
    for line in lines {
        if !write_whole(*line, &mut text) {
            return false;
        }
    }
    tells(text.as_slice(), lines)
}

#[test]
fn written_lines_come_back(rt: HostRuntime) {
    let numbers = [0, 1, 9, 10, 99, 4294967289, 4294967294, 4294967295];
    let actions = [0, 1, 9, 10, 99, 65529, 65534, 65535];
    for (inst, link) in numbers.iter().zip(numbers.iter().rev()) {
        for action in actions.iter() {
            let lines = lines_with(*inst, *action, *link);
            for line in lines.iter() {
                assert!(rt; comes_back(*line), "{line:?}");
            }
            assert!(rt; come_back(lines.as_slice()), "{inst} {action} {link}");
        }
    }
}
