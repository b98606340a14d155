//! What holds of flat networks.

ghost use Rattle.fnl_flatten.specs.Flat.{FlatAreWired};
ghost use Rattle.fnl_flatten.specs.Flattened.{AnswersAreFlat};
ghost use Rattle.fnl_flatten.specs.LinkLaws.{LinksAreOne, OneLinkLeads};

use net_model::Meaning;

/// A network that is made of connected networks is wired: both ends of each link are there and aren't both the
/// network's own, it can hold what any action takes or gives at its ends, and links are in link order.
pub fn flat_networks_are_wired<M: Meaning>()
    ensures { FlatAreWired M.State }
{}

/// A network that an answer of `flatten` stands for is the flat network of the tree: its actors have the ports that were
/// told, its links are exactly those that chains of connections join, and it is wired.
pub fn answers_are_flat_networks<M: Meaning>()
    ensures { AnswersAreFlat M.State }
{}

/// Connected networks have one list of links, and one link leads to each port that is read: at most one connection
/// leads to a port, so it has one chain from a port that is written.
pub fn links_are_one()
    ensures list { LinksAreOne }
    ensures link { OneLinkLeads }
{}
