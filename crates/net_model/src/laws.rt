//! What holds of all runs.
//!
//! Each law is the contract of a function that does nothing: it is proved with the crate, and can be cited.

ghost use Rattle.net_model.specs.Laws.{ActsOnce, DeliveriesAdd, DeliveriesCommute, DeliveriesKeepFirings, EventsKeepSent, FiringsCommute, LinesAreOrdered, LinesAreRuns, LinesKeepSent, LinesLeadToOne, QuietIsWaiting, RunsAreOrdered, StartsInOrder, TrapsByOneCause, TrapsOutlastDeliveries, TrapsOutlastFirings, StalledIsNotQuiet, StallsInOnePlace};

/// The states of the actors of a network, as a type that laws can speak of.
pub trait Meaning {
    ghost State: { Type 0 };
}

/// What was sent on a link stays in front of what is sent later, in every run and by every line.
pub fn sent_lists_only_grow<M: Meaning>()
    ensures by_events { EventsKeepSent M.State }
    ensures by_lines { LinesKeepSent M.State }
{}

/// No more tokens are taken from a link than have arrived there, and no more arrive than were sent: at the
/// start of a run over files, and in every state that events or lines lead to from such a state, if the
/// network is wired and every leaf's behaviour is lawful.
pub fn taken_have_arrived<M: Meaning>()
    ensures start { StartsInOrder M.State }
    ensures by_events { RunsAreOrdered M.State }
    ensures by_lines { LinesAreOrdered M.State }
{}

/// The lines of a trace and the state before them determine the state that they lead to.
pub fn lines_lead_to_one_state<M: Meaning>()
    ensures { LinesLeadToOne M.State }
{}

/// What the lines of a trace play is a run of events, with the firings that the lines show: a delivery is an
/// event for each link, and the growth of a link is none.
pub fn lines_are_runs<M: Meaning>()
    ensures { LinesAreRuns M.State }
{}

/// If every leaf's behaviour is lawful, a state is quiet exactly if it is settled and each leaf waits.
pub fn quiet_is_waiting<M: Meaning>()
    ensures { QuietIsWaiting M.State }
{}

/// A state is stalled at one leaf, action and link, and isn't quiet then.
pub fn stalled_in_one_place<M: Meaning>()
    ensures one_place { StallsInOnePlace M.State }
    ensures not_quiet { StalledIsNotQuiet M.State }
{}

/// Two firings of different leaves that may both happen lead to one state in either order.
pub fn firings_commute<M: Meaning>()
    ensures { FiringsCommute M.State }
{}

/// Deliveries that may both happen lead to one state in either order: on different links, and on one link if
/// together they don't pass what was sent.
pub fn deliveries_commute<M: Meaning>()
    ensures apart { DeliveriesCommute M.State }
    ensures on_one_link { DeliveriesAdd M.State }
{}

/// A firing of a stable actor and a delivery that may both happen lead to one state in either order.
pub fn deliveries_keep_firings<M: Meaning>()
    ensures { DeliveriesKeepFirings M.State }
{}

/// A trap doesn't depend on what else happens: a trap of a stable actor stays possible when tokens arrive, and any
/// trap when another leaf fires. Of an action there is one cause at most.
pub fn traps_outlast<M: Meaning>()
    ensures deliveries { TrapsOutlastDeliveries M.State }
    ensures firings { TrapsOutlastFirings M.State }
    ensures one_cause { TrapsByOneCause M.State }
{}

/// In a network of stable actors a leaf has one firing or trap at most in a state.
pub fn stable_actors_act_once<M: Meaning>()
    ensures { ActsOnce M.State }
{}
