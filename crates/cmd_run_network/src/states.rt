//! The states of the actors of cells, as laws of networks speak of them.

use net_model::{Firing, Meaning};
use std::marker::PhantomData;

/// Stands for the states of the actors of these cells.
pub(crate) struct StatesOf<A: Firing> {
    _cells: PhantomData<A>,
}

impl<A: Firing> Meaning for StatesOf<A> {
    ghost State = { A.State };
}
