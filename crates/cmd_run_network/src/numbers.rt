//! The numbers of a run, taken over without memory.

ghost use Rattle.std.specs.Prelude.{◌≡◌, length};
ghost use Rattle.cmd_run_network.specs.Preparing.{TakesOver};

use net_model::Counts;

/// Copies a list into one that is as long; another one stays.
fn copy_into<T: Copy>(from: &[T], into: &mut [T])
    ensures { length from.now ≡ length into.old → into.new ≡ from.now }
{
    if from.len() == into.len() {
        into.copy_from_slice(from);
    }
}

/// Copies the numbers of a run, as far as there are places for them.
pub(crate) fn take_over(from: &Counts, into: &mut Counts)
    ensures { TakesOver from.now into.old into.new }
{
    into.firings = from.firings;
    into.rounds = from.rounds;
    copy_into(from.arrived.as_slice(), into.arrived.as_mut_slice());
    copy_into(from.rests.as_slice(), into.rests.as_mut_slice());
    copy_into(from.sent.as_slice(), into.sent.as_mut_slice());
}
