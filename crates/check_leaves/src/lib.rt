//! The actors at the leaves of a network, checked.
//!
//! [`check_leaves`] goes through the leaves in order. Each class is checked once for the values that its leaves give to
//! parameters, however many leaves there are: leaves that are alike are one actor ([`alike_leaves_are_one_actor`]), since
//! where they stand matters only for what is refused. A leaf is looked for among those of its class whose values differ,
//! so a network takes the time of its leaves, times the distinct values that one class is given. [`heads`] gives the
//! ports of the actor at each leaf, as flattening takes them.
//!
//! Who keeps actors from one network to the next has the same of one leaf: [`actor_at`], [`give_same`] and [`head_of`].
//!
//! `specs/Leaves.antt` says which actors these are and what refuses a leaf, in the words of the source network.
#![tactic(auto)]

mod alike;
mod find;
mod first;
mod found;
mod known;
mod laws;
mod newest;
mod one;
mod ports;
mod rates;
mod values;
mod whole;

pub use alike::give_same;
pub use found::LeafActors;
pub use laws::{
    actors_are_leaves_of_a_network, alike_leaves_are_one_actor, spelled_actors_are_formed,
};
pub use one::actor_at;
pub use ports::{head_of, heads};
pub use whole::check_leaves;
