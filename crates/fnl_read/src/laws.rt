//! A law of network files, as a function that does nothing.

ghost use Rattle.std.specs.Prelude.{◌≡◌, ◌+◌, ℕ, List, take};
ghost use Rattle.rvc_base.specs.Rules.{spells_no_network};
ghost use Rattle.fnl_frames.specs.Net.{Net};
ghost use Rattle.fnl_read.specs.Network.{Broke, Network, network};

use fnl_markup::{no_markup_begins_so, same_tags_before};

/// Where a text is refused by F1 at a byte, no text of a network begins with the bytes up to that
/// one and with it; where it is refused by F1 at its end, it spells no network.
pub fn no_network_begins_so()
    ensures { (text other : List ℕ) (at : ℕ) (net : Net)
        → network text ≡ Broke spells_no_network at
        → take (at + 1) other ≡ take (at + 1) text
        → network other ≡ Network net → ⊥ }
{
    no_markup_begins_so();
    same_tags_before();
}
