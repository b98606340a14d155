//! How many tokens an action takes and gives.

ghost use Rattle.std.specs.Prelude.{◌≡◌, ◌≤◌, ◌<◌, length, map};
ghost use Rattle.cal_model.specs.Rates.{give, given_on, need, parts, parts_times, taken_on};
ghost use Rattle.cal_model.specs.Sound.{AreRepeated, IsRepeat, IsSound, max_rate, repeat_in, repeat_out};
ghost use Rattle.cal_model.specs.View.{actor_of, output_view, pattern_view};

use crate::bound::{Bound, BoundOutput, BoundPattern};

/// How many tokens the action takes from the input port.
pub fn need(b: &Bound, a: u16, port: u32) -> u32
    requires sound { IsSound (actor_of b.now) }
    requires action { a < length b.now.actions.items }
    requires has_port { port < length b.now.ins.items }
    ensures { result ≡ need (actor_of b.now) a port }
{
    taken_on(port, &b.actions[usize::from(a)].patterns)
}

/// How many tokens the action gives on the output port.
pub fn give(b: &Bound, a: u16, port: u32) -> u32
    requires sound { IsSound (actor_of b.now) }
    requires action { a < length b.now.actions.items }
    requires has_port { port < length b.now.outs.items }
    ensures { result ≡ give (actor_of b.now) a port }
{
    given_on(port, &b.actions[usize::from(a)].outputs)
}

/// How many tokens the patterns take from the port.
fn taken_on(port: u32, patterns: &[BoundPattern]) -> u32
    requires repeated { AreRepeated repeat_in (map pattern_view patterns.now) }
    requires few { taken_on port (map pattern_view patterns.now) ≤ max_rate }
    ensures { result ≡ taken_on port (map pattern_view patterns.now) }
{
    for pattern in patterns {
        if pattern.port == port {
            return tokens(pattern.names.len(), pattern.repeat);
        }
    }
    0
}

/// How many tokens the outputs give on the port.
fn given_on(port: u32, outputs: &[BoundOutput]) -> u32
    requires repeated { AreRepeated repeat_out (map output_view outputs.now) }
    requires few { given_on port (map output_view outputs.now) ≤ max_rate }
    ensures { result ≡ given_on port (map output_view outputs.now) }
{
    for output in outputs {
        if output.port == port {
            return given_by(output);
        }
    }
    0
}

/// How many tokens an output gives on its port.
fn given_by(output: &BoundOutput) -> u32
    requires repeated { IsRepeat output.now.repeat }
    requires few { parts_times (parts (output_view output.now).values) output.now.repeat ≤
        max_rate }
    ensures { result ≡ parts_times (parts (output_view output.now).values) output.now.repeat }
{
    tokens(output.values.len(), output.repeat)
}

/// So many parts, as often as they are repeated.
fn tokens(parts: usize, repeat: Option<u32>) -> u32
    requires repeated { IsRepeat repeat }
    requires few { parts_times parts repeat ≤ max_rate }
    ensures { result ≡ parts_times parts repeat }
{
    match repeat {
        Some(times) => parts as u32 * times,
        None => parts as u32,
    }
}
