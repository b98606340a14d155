//! The order of the turns of one period, and the most tokens that lie on each link in it.
//!
//! The leaves of a network fire with fixed rates. Links lie between them and are given by these rates, and nothing
//! lies on a link at first. A leaf may take its turn if it finds on each link to it as many tokens as it needs, and
//! what it gives lies on its links from then on (Lee and Messerschmitt, "Synchronous Data Flow", 1987).
//! [`find_period`] lets the least leaf that may take its turn do so, until each has had its turns. If that comes to a
//! stop before, no order of these turns is possible.
#![tactic(auto)]

mod board;
mod laws;
mod order;
mod setup;
mod turn;

pub use laws::{least_first_suffices, periods_empty_their_links};
pub use order::{Period, PeriodFault, find_period};
