//! Where a reader stands after one byte more.

ghost use Rattle.std.specs.Prelude.{◌≡◌, ◌+◌, ◌<◌, ◌≤◌, ◌↔◌, IsTrue, Option};
ghost use Rattle.trace_text.specs.Names.{is_letter as is_letter_byte, is_name_byte as is_part_of_name};
ghost use Rattle.trace_text.specs.Waiting.{Leads, LeadsVersion, IsWithin, Waits, least_of, bound_of, stop_of, separator_of, IsDigit, LeadsOut, SoFar, StandsBehind};
ghost use Rattle.trace_text.specs.declared.place.Place.TheVariants.{Start, AfterR, Front, Letter, Number, AtName, InName, AtTrap, InTrap, Ending};

use crate::line::Line;
use crate::place::{Field, Part, Place};
use rvc_base::Trap;

/// What stands before the version in the first line.
const FRONT: &[u8] = b"rvc-trace ";

/// Where a reader stands after one byte more.
pub(crate) fn advance(place: Place, byte: u8) -> Place
    ensures { Leads place byte result }
{
    match place {
        Place::Start => first_byte(byte),
        Place::AfterR => after_r(byte),
        Place::Front { read } => in_front(read, byte),
        Place::Letter { field } => after_letter(field, byte),
        Place::Number { field, so_far } => in_number(field, so_far, byte),
        Place::AtName { inst, part } => at_name(inst, part, byte),
        Place::InName { inst, part } => in_name(inst, part, byte),
        Place::AtTrap { inst, action } => at_trap(inst, action, byte),
        Place::InTrap {
            inst,
            action,
            trap,
            read,
        } => in_trap(inst, action, trap, read, byte),
        Place::Ending { line } => at_end(line, byte),
        Place::Ended { line: _ } => Place::Lost,
        Place::Lost => Place::Lost,
    }
}

fn first_byte(byte: u8) -> Place
    ensures { Leads Start byte result }
{
    match byte {
        b'r' => Place::AfterR,
        b'i' => Place::Letter {
            field: Field::Instance,
        },
        b'f' => Place::Letter {
            field: Field::FiringInst,
        },
        b'g' => Place::Letter {
            field: Field::GrownLink,
        },
        b'q' => Place::Ending { line: Line::Quiet },
        b't' => Place::Letter {
            field: Field::TrappingInst,
        },
        b's' => Place::Letter {
            field: Field::StalledInst,
        },
        b'b' => Place::Ending { line: Line::Budget },
        _ => Place::Lost,
    }
}

fn after_r(byte: u8) -> Place
    ensures { Leads AfterR byte result }
{
    match byte {
        b'\n' => Place::Ended {
            line: Line::Deliver,
        },
        b'v' => Place::Front { read: 2 },
        _ => Place::Lost,
    }
}

fn in_front(read: usize, byte: u8) -> Place
    ensures { Leads (Front read) byte result }
{
    if read >= FRONT.len() {
        at_version(byte)
    } else if FRONT[read] == byte {
        Place::Front { read: read + 1 }
    } else {
        Place::Lost
    }
}

fn at_version(byte: u8) -> Place
    ensures { LeadsVersion byte result }
{
    match byte {
        b'1' => Place::Letter {
            field: Field::Instances,
        },
        b'2' => Place::Letter {
            field: Field::GrowingInstances,
        },
        _ => Place::Lost,
    }
}

fn after_letter(field: Field, byte: u8) -> Place
    ensures { Leads (Letter field) byte result }
{
    if byte == b' ' {
        Place::Number {
            field,
            so_far: None,
        }
    } else {
        Place::Lost
    }
}

fn in_number(field: Field, so_far: Option<u32>, byte: u8) -> Place
    ensures { Leads (Number field so_far) byte result }
{
    if byte.is_ascii_digit() {
        match with_digit(so_far, byte - b'0', most(field)) {
            Some(number) => within_number(field, number),
            None => Place::Lost,
        }
    } else {
        match so_far {
            Some(number) => after_number(field, number, byte),
            None => Place::Lost,
        }
    }
}

/// Where a reader stands behind the digits of this number.
fn within_number(field: Field, number: u32) -> Place
    ensures { IsWithin field number result }
{
    if number >= least(field) {
        Place::Number {
            field,
            so_far: Some(number),
        }
    } else {
        Place::Lost
    }
}

/// The number that the digits so far and one more are. None if no number has these digits, or if it is
/// too great.
fn with_digit(so_far: Option<u32>, digit: u8, most: u32) -> Option<u32>
    requires { digit < 10 }
    ensures { SoFar so_far digit most result }
{
    match so_far {
        None => Some(u32::from(digit)),
        Some(0) => None,
        Some(number) => {
            let longer = u64::from(number) * 10 + u64::from(digit);
            if longer <= u64::from(most) {
                Some(longer as u32)
            } else {
                None
            }
        }
    }
}

fn after_number(field: Field, number: u32, byte: u8) -> Place
    requires { IsDigit byte → ⊥ }
    ensures { Leads (Number field (Option.Some number)) byte result }
{
    if byte == stop(field) && least(field) <= number && number <= most(field) {
        behind(field, number)
    } else {
        Place::Lost
    }
}

/// The least number of a field: a limit of growth is at least 1.
fn least(field: Field) -> u32
    ensures { result ≡ least_of field }
{
    match field {
        Field::Limit { .. } => 1,
        _ => 0,
    }
}

/// The greatest number of a field.
fn most(field: Field) -> u32
    ensures { result + 1 ≡ bound_of field }
{
    match field {
        Field::FiringAction { .. } | Field::TrappingAction { .. } | Field::StalledAction { .. } => {
            65535
        }
        _ => u32::MAX,
    }
}

/// The byte that stands behind the number of a field.
fn stop(field: Field) -> u8
    ensures { result ≡ stop_of field }
{
    match field {
        Field::Links { .. }
        | Field::Limit { .. }
        | Field::FiringAction { .. }
        | Field::StalledLink { .. }
        | Field::GrownCapacity { .. } => b'\n',
        _ => b' ',
    }
}

/// Where a reader stands behind the number of a field and the byte that stops it.
fn behind(field: Field, number: u32) -> Place
    requires low { number < bound_of field }
    requires high { least_of field ≤ number }
    ensures { StandsBehind field number result }
{
    match field {
        Field::Instances => at_number(Field::Links { instances: number }),
        Field::Links { instances } => Place::Ended {
            line: Line::Header {
                instances,
                links: number,
                grow: 0,
            },
        },
        Field::GrowingInstances => at_number(Field::GrowingLinks { instances: number }),
        Field::GrowingLinks { instances } => at_number(Field::Limit {
            instances,
            links: number,
        }),
        Field::Limit { instances, links } => Place::Ended {
            line: Line::Header {
                instances,
                links,
                grow: number,
            },
        },
        Field::Instance => Place::AtName {
            inst: number,
            part: Part::Path,
        },
        Field::FiringInst => at_number(Field::FiringAction { inst: number }),
        Field::FiringAction { inst } => Place::Ended {
            line: Line::Fire {
                inst,
                action: number as u16,
            },
        },
        Field::TrappingInst => at_number(Field::TrappingAction { inst: number }),
        Field::TrappingAction { inst } => Place::AtTrap {
            inst,
            action: number as u16,
        },
        Field::StalledInst => at_number(Field::StalledAction { inst: number }),
        Field::StalledAction { inst } => at_number(Field::StalledLink {
            inst,
            action: number as u16,
        }),
        Field::StalledLink { inst, action } => Place::Ended {
            line: Line::Stall {
                inst,
                action,
                link: number,
            },
        },
        Field::GrownLink => at_number(Field::GrownCapacity { link: number }),
        Field::GrownCapacity { link } => Place::Ended {
            line: Line::Grow {
                link,
                capacity: number,
            },
        },
    }
}

/// Where a reader stands before the first digit of a number.
fn at_number(field: Field) -> Place
    ensures { result ≡ Number field Option.None }
{
    Place::Number {
        field,
        so_far: None,
    }
}

fn at_name(inst: u32, part: Part, byte: u8) -> Place
    ensures { Leads (AtName inst part) byte result }
{
    if is_letter(byte) {
        Place::InName { inst, part }
    } else {
        Place::Lost
    }
}

fn in_name(inst: u32, part: Part, byte: u8) -> Place
    ensures { Leads (InName inst part) byte result }
{
    if is_name_byte(byte) {
        Place::InName { inst, part }
    } else if byte == separator(part) {
        Place::AtName { inst, part }
    } else {
        after_names(inst, part, byte)
    }
}

fn after_names(inst: u32, part: Part, byte: u8) -> Place
    ensures { LeadsOut inst part byte result }
{
    match part {
        Part::Path if byte == b' ' => Place::AtName {
            inst,
            part: Part::Class,
        },
        Part::Class if byte == b'\n' => Place::Ended {
            line: Line::Inst { inst },
        },
        _ => Place::Lost,
    }
}

fn separator(part: Part) -> u8
    ensures { result ≡ separator_of part }
{
    match part {
        Part::Path => b'/',
        Part::Class => b'.',
    }
}

/// Whether a name may begin with this byte.
fn is_letter(byte: u8) -> bool
    ensures { result ≡ is_letter_byte byte }
{
    matches!(byte, b'A'..=b'Z' | b'a'..=b'z' | b'_')
}

/// Whether a name may have this byte behind its first one.
fn is_name_byte(byte: u8) -> bool
    ensures { result ≡ is_part_of_name byte }
{
    is_letter(byte) || matches!(byte, b'0'..=b'9')
}

fn at_trap(inst: u32, action: u16, byte: u8) -> Place
    ensures { Leads (AtTrap inst action) byte result }
{
    match byte {
        b'O' => in_name_of(inst, action, Trap::Overflow),
        b'D' => in_name_of(inst, action, Trap::DivideByZero),
        b'I' => in_name_of(inst, action, Trap::IndexRange),
        b'S' => in_name_of(inst, action, Trap::ShiftRange),
        b'T' => in_name_of(inst, action, Trap::TurnLimit),
        _ => Place::Lost,
    }
}

/// Where a reader stands behind the first letter of a trap's name.
fn in_name_of(inst: u32, action: u16, trap: Trap) -> Place
    ensures { result ≡ InTrap inst action trap 1 }
{
    Place::InTrap {
        inst,
        action,
        trap,
        read: 1,
    }
}

fn in_trap(inst: u32, action: u16, trap: Trap, read: usize, byte: u8) -> Place
    ensures { Leads (InTrap inst action trap read) byte result }
{
    let name = trap.name().as_bytes();
    if read >= name.len() {
        at_end(Line::Trap { inst, action, trap }, byte)
    } else if name[read] == byte {
        Place::InTrap {
            inst,
            action,
            trap,
            read: read + 1,
        }
    } else {
        Place::Lost
    }
}

fn at_end(line: Line, byte: u8) -> Place
    ensures { Leads (Ending line) byte result }
{
    if byte == b'\n' {
        Place::Ended { line }
    } else {
        Place::Lost
    }
}
