//! How many actors are certified.

ghost use Rattle.std.specs.Prelude.{◌≡◌};
ghost use Rattle.cmd_network.specs.Commands.{count_none};

use determinacy_cert::CertFault;

/// How many of these are nothing: so many actors are certified, if this is said of each.
pub fn count_none(said: &[Option<CertFault>]) -> u64
    ensures { result ≡ count_none said.now }
{
    let mut count = 0u64;
    let mut rest = said;
    'said: while let Some((fault, others)) = rest.split_first() {
        if fault.is_none() {
            count += 1;
        }
        rest = others;
    }
    count
}
