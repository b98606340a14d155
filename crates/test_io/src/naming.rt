//! Channels are opened under names, over an object that keeps these as text.

ghost use Rattle.std.specs.Prelude.{◌≡◌, ◌∷◌, false, OnOk};
ghost use Rattle.rvc_io.specs.MemDrains.{channels_of};
ghost use Rattle.rvc_io.specs.Past.{Opened};

use rvc_io::{Drains, Failed, MemDrains};

/// Channels in memory, and the names that they were opened under, with a blank behind each.
#[derive(Drop)]
struct Named {
    drains: MemDrains,
    names: String,
}

impl Drains for Named {
    ghost channels = { λ d. channels_of d.drains };

    ghost past = { λ d. d.drains.past };

    fn open(&mut self, channel: u32, name: &str) -> Result<(), Failed> {
        let opened = self.drains.open(channel, name);
        if opened.is_ok() && self.names.push_str(name).is_ok() {
            let _kept = self.names.push_str(" ");
        }
        opened
    }

    fn put(&mut self, channel: u32, piece: &[u8]) -> Result<usize, Failed> {
        self.drains.put(channel, piece)
    }
}

/// Opens channels 1 and 2 under these names, in this order, and does nothing else.
fn open_both<D: Drains>(drains: &mut D, first: &str, second: &str) -> Result<(), Failed>
    requires first { (D.channels drains.old).is_open 1 ≡ false }
    requires second { (D.channels drains.old).is_open 2 ≡ false }
    ensures { OnOk result (D.past drains.new
        ≡ Opened 2 second.now ∷ Opened 1 first.now ∷ D.past drains.old) }
{
    match drains.open(1, first) {
        Ok(()) => drains.open(2, second),
        Err(Failed) => Err(Failed),
    }
}

#[test]
fn channels_are_opened_under_their_names(rt: HostRuntime) {
    let alloc = rt.alloc();
    let drains = MemDrains::new(alloc, Vec::new(alloc), 3, 3, 5).expect(&rt, "channels");
    let mut named = Named {
        drains,
        names: String::new(alloc),
    };
    assert!(rt; open_both(&mut named, "trace", "out") == Ok(()));
    assert!(rt; named.names.as_str() == "trace out ");
}
