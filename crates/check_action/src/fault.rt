//! Faults of members, as those of kinds.

ghost use Rattle.std.specs.Prelude.{◌≡◌};
ghost use Rattle.check_action.specs.Faults.{as_kind_fault};

use check_member::MemberFault;
use const_eval::KindFault;

/// The same fault, as one of kinds.
pub(crate) fn as_kind_fault(f: MemberFault) -> KindFault
    ensures { result ≡ as_kind_fault f }
{
    match f {
        MemberFault::Broken { rule, at } => KindFault::Broken { rule, at },
        MemberFault::Memory => KindFault::Memory,
    }
}
