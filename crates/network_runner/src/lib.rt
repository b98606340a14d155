//! Rounds and runs of any network: deliver, fire, write, to an end.
//!
//! A [`Runner`] holds cells, their wiring, a plan and a policy. It makes rounds one by one, or all to an end.
//!
//! A round sends out what goes to the network's outputs ([`send_all`]), makes a delivery ([`deliver_all`]), lets the
//! instances fire that its policy picks and says what closes it ([`fire_round`], or [`end_spent`] if no firing is left),
//! and writes its lines ([`note_round`]). What came and was sent is counted ([`count_arrived`], [`count_sent`]), and at an end
//! what is buffered is put ([`flush_all`]). Each call says what it does to every state of the network in which the cells
//! stand.
#![tactic(auto)]

mod closing;
mod counting;
mod delivering;
mod feeding;
mod firing;
mod laws;
mod making;
mod noting;
mod putting;
mod runner;
mod sending;
mod spending;

pub use closing::close_idle;
pub use counting::{count_arrived, count_sent};
pub use delivering::deliver_all;
pub use feeding::{ReadFault, fill_all};
pub use firing::{RoundMade, Turn, fire_round, make_firings};
pub use laws::runs_are_paced;
pub use making::{copy_of, no_counts, no_marks, nothing_came, outlets_of, readers_of, writers_of};
pub use noting::note_round;
pub use putting::flush_all;
pub use runner::Runner;
pub use sending::{Outlet, WriteFault, send_all};
pub use spending::end_spent;
