//! What holds of all runs of networks of stable actors.
//!
//! Each law is the contract of a function that does nothing: it is proved with the crate, and can be cited.

ghost use Rattle.determinacy_cert.specs.Determinacy.{FiringsArePrefixes, SentArePrefixes, QuietRunsAgree, NoQuietRunBesides, AsManyFiringsAreAll};
ghost use Rattle.determinacy_cert.specs.Certifying.{CertifiedAreDeterminate, CertifiedAreStable, NoFailureWhereCertified};

use cal_model::sound_actors_are_lawful;
use net_model::Meaning;

/// Each leaf's firings in any run begin those of any quiet run over the same inputs, and what was sent on each link
/// begins what that run sent there.
pub fn runs_lead_towards_quiet<M: Meaning>()
    ensures firings { FiringsArePrefixes M.State }
    ensures sent { SentArePrefixes M.State }
{}

/// Two quiet runs over the same inputs sent the same on each link.
pub fn quiet_runs_agree<M: Meaning>()
    ensures { QuietRunsAgree M.State }
{}

/// If some run over these inputs traps, no run over them becomes quiet.
pub fn no_quiet_run_besides_a_trap<M: Meaning>()
    ensures { NoQuietRunBesides M.State }
{}

/// No run makes more firings than a quiet run over the same inputs, and one that makes as many and has all delivered is
/// quiet.
pub fn as_many_firings_are_all<M: Meaning>()
    ensures { AsManyFiringsAreAll M.State }
{}

/// A sound and certified actor is stable: what it does it does with more tokens too, with the same effect, and no other
/// action does anything then.
pub fn certified_actors_are_stable()
    ensures { CertifiedAreStable }
{}

/// A wired network whose leaves are sound and certified actors is determinate: the laws above hold of its runs.
pub fn certified_networks_are_determinate()
    ensures { CertifiedAreDeterminate }
{
    sound_actors_are_lawful();
    certified_actors_are_stable();
}

/// An actor is certified if and only if the list of its failures is empty.
pub fn no_failure_where_certified()
    ensures { NoFailureWhereCertified }
{}
