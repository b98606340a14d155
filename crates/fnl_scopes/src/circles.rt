//! Networks inside themselves.

ghost use Rattle.std.specs.Prelude.{◌≡◌, map, string_bytes};
ghost use Rattle.fnl_bind.specs.Library.{is_among};
ghost use Rattle.fnl_bind.specs.Scopes.{circles};
ghost use Rattle.fnl_frames.specs.Views.{instance_of};
ghost use Rattle.fnl_scopes.specs.Tested.{Tests};

use crate::fault::ScopeFault;
use fnl_read::NetInstance;
use rvc_base::Rule;

/// Whether a name is one of these.
fn is_among(name: &str, names: &[String]) -> bool
    ensures { result ≡ is_among name.now (map string_bytes names.now) }
{
    let mut rest = names;
    'names: while let Some((first, others)) = rest.split_first() {
        if first.as_str() == name {
            return true;
        }
        rest = others;
    }
    false
}

/// That no instance is of the class of a network in which it stands.
pub(crate) fn no_circles(instances: &[NetInstance], above: &[String]) -> Result<(), ScopeFault>
    ensures { Tests result (circles (map instance_of instances.now) (map string_bytes above.now)) }
{
    let mut rest = instances;
    'instances: while let Some((first, others)) = rest.split_first() {
        if is_among(first.class.as_str(), above) {
            return Err(ScopeFault::Broken {
                rule: Rule::NETWORK_CYCLE,
                at: first.class_at,
            });
        }
        rest = others;
    }
    Ok(())
}
