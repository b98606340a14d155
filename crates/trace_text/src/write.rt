//! Lines as text.

ghost use Rattle.std.specs.Prelude.{◌≡◌, ◌≤◌, ◌+◌, ◌++◌, [], ℕ, List, length, decimal, codes};
ghost use Rattle.arrayvec.specs.ArrayVec.{array_vec_len};
ghost use Rattle.trace_text.specs.Text.{line_text, line_feed, then_number, IsWhole};
ghost use Rattle.trace_text.specs.Names.{IsPath, IsClass};
ghost use Rattle.trace_text.specs.Spelling.{Spells};
ghost use Rattle.trace_text.specs.declared.line.Line.TheVariants.{Header, Inst};

use crate::line::Line;
use arrayvec::ArrayVec;
use itoa::Buffer;

/// The most bytes that a line takes, but for the line of an instance.
pub const MAX_LINE_BYTES: usize = 64;

/// Writes a line into `out`, which is empty. The line of an instance is written in parts elsewhere.
///
/// What is written spells the line, so that a reader reads it back.
pub fn write_line(line: &Line, out: &mut ArrayVec<u8, 64>)
    requires empty { out.old.items ≡ [] }
    requires whole { IsWhole line.now }
    ensures text { out.new.items ≡ line_text line.now }
    ensures spelled { Spells line.now out.new.items }
{
    match line {
        Line::Header {
            instances,
            links,
            grow,
        } => push_header(*instances, *links, *grow, out),
        Line::Inst { inst: _ } => unreachable!(),
        Line::Fire { inst, action } => {
            push_text(b"f", out);
            push_number(*inst, out);
            push_number(u32::from(*action), out);
        }
        Line::Deliver => push_text(b"r", out),
        Line::Grow { link, capacity } => {
            push_text(b"g", out);
            push_number(*link, out);
            push_number(*capacity, out);
        }
        Line::Quiet => push_text(b"q", out),
        Line::Trap { inst, action, trap } => {
            push_text(b"t", out);
            push_number(*inst, out);
            push_number(u32::from(*action), out);
            push_text(b" ", out);
            push_text(trap.name().as_bytes(), out);
        }
        Line::Stall { inst, action, link } => {
            push_text(b"s", out);
            push_number(*inst, out);
            push_number(u32::from(*action), out);
            push_number(*link, out);
        }
        Line::Budget => push_text(b"b", out),
    }
    push_text(b"\n", out);
}

/// Writes what stands before the path in the line of an instance into `out`, which is empty.
///
/// The path, a blank, the class and one LF follow, and spell the line with it.
pub fn write_front(inst: u32, out: &mut ArrayVec<u8, 64>)
    requires empty { out.old.items ≡ [] }
    ensures text { out.new.items ≡ line_text (Inst inst) }
    ensures spelled { (path class : List ℕ) → IsPath path → IsClass class
        → Spells (Inst inst) (out.new.items ++ path ++ codes " " ++ class ++ line_feed) }
{
    push_text(b"i", out);
    push_number(inst, out);
    push_text(b" ", out);
}

/// Puts all of the first line but its line feed into `out`, which is empty.
fn push_header(instances: u32, links: u32, grow: u32, out: &mut ArrayVec<u8, 64>)
    requires empty { out.old.items ≡ [] }
    ensures text { out.new.items ++ line_feed ≡ line_text (Header instances links grow) }
    ensures len { array_vec_len out.new ≤ 44 }
{
    if grow == 0 {
        push_text(b"rvc-trace 1", out);
        push_number(instances, out);
        push_number(links, out);
    } else {
        push_text(b"rvc-trace 2", out);
        push_number(instances, out);
        push_number(links, out);
        push_number(grow, out);
    }
}

/// Puts a short text behind what stands in `out`.
fn push_text(text: &[u8], out: &mut ArrayVec<u8, 64>)
    requires { array_vec_len out.old + length text.now ≤ 64 }
    ensures items { out.new.items ≡ out.old.items ++ text.now }
    ensures len { array_vec_len out.new ≡ array_vec_len out.old + length text.now }
{
    match out.try_extend_from_slice(text) {
        Ok(()) => {}
        Err(_) => unreachable!(),
    }
}

/// Puts a blank and a number behind what stands in `out`.
fn push_number(n: u32, out: &mut ArrayVec<u8, 64>)
    requires { array_vec_len out.old + 11 ≤ 64 }
    ensures items { out.new.items ≡ out.old.items ++ then_number n }
    ensures len { array_vec_len out.new ≤ array_vec_len out.old + 11 }
{
    let mut buffer = Buffer::new();
    push_text(b" ", out);
    push_text(buffer.format(n).as_bytes(), out);
}
