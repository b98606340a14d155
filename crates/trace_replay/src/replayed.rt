//! What came of a trace that was replayed.

use net_model::Counts;
use trace_text::Line;

/// What came of a trace that was replayed.
#[derive(Drop)]
pub struct Replayed {
    /// The line that ends the run.
    pub end: Line,
    /// The numbers of the run.
    pub counts: Counts,
}
