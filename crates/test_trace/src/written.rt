//! Lines of a trace that are written.

ghost use Rattle.trace_text.specs.Text.{IsWhole};

use arrayvec::ArrayVec;
use rvc_base::Trap;
use trace_text::{Line, write_front, write_line};

/// Whether a line has this text.
fn reads(line: &Line, text: &str) -> bool
    requires { IsWhole line.now }
{
    let mut out = ArrayVec::new();
    write_line(line, &mut out);
    out.as_slice() == text.as_bytes()
}

#[test]
fn each_kind_of_line(rt: HostRuntime) {
    let header = Line::Header {
        instances: 0,
        links: 10,
        grow: 0,
    };
    assert!(rt; reads(&header, "rvc-trace 1 0 10\n"));
    let growing = Line::Header {
        instances: 3,
        links: 5,
        grow: 4,
    };
    assert!(rt; reads(&growing, "rvc-trace 2 3 5 4\n"));
    let grow = Line::Grow {
        link: 3,
        capacity: 4294967295,
    };
    assert!(rt; reads(&grow, "g 3 4294967295\n"));
    let fire = Line::Fire {
        inst: 9,
        action: 65535,
    };
    assert!(rt; reads(&fire, "f 9 65535\n"));
    assert!(rt; reads(&Line::Deliver, "r\n"));
    assert!(rt; reads(&Line::Quiet, "q\n"));
    let trap = Line::Trap {
        inst: 4294967295,
        action: 0,
        trap: Trap::DivideByZero,
    };
    assert!(rt; reads(&trap, "t 4294967295 0 DivideByZero\n"));
    let stall = Line::Stall {
        inst: 0,
        action: 10,
        link: 4294967295,
    };
    assert!(rt; reads(&stall, "s 0 10 4294967295\n"));
    assert!(rt; reads(&Line::Budget, "b\n"));
}

#[test]
fn front_of_an_instance(rt: HostRuntime) {
    let mut out = ArrayVec::new();
    write_front(10, &mut out);
    assert!(rt; out.as_slice() == b"i 10 ".as_slice());
}
