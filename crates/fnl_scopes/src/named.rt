//! The name of a network.

ghost use Rattle.std.specs.Prelude.{◌≡◌};
ghost use Rattle.fnl_bind.specs.Scopes.{last_component, name_broken};
ghost use Rattle.fnl_frames.specs.Views.{net_of};
ghost use Rattle.fnl_scopes.specs.Tested.{Tests};

use crate::fault::ScopeFault;
use fnl_read::NetFile;
use rvc_base::Rule;

/// What stands behind the last dot of a class, or all of it if it has none.
fn last_component(class: &[u8]) -> &[u8]
    ensures { result.now ≡ last_component class.now }
{
    let mut from = class.len();
    'bytes: while from > 0 && class[from - 1] != b'.' {
        from -= 1;
    }
    &class[from..]
}

/// That the network in the file of a class has the name with which the class ends.
pub(crate) fn named_as_asked(net: &NetFile, class: &str) -> Result<(), ScopeFault>
    ensures { Tests result (name_broken (net_of net.now) class.now) }
{
    if last_component(class.as_bytes()) == net.name.as_bytes() {
        return Ok(());
    }
    Err(ScopeFault::Broken {
        rule: Rule::NOT_AS_ASKED,
        at: 0,
    })
}
