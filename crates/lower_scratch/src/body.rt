//! A body, and what is set at its places.

ghost use Rattle.std.specs.Prelude.{◌≡◌, ℕ, ◌+◌, ◌<◌, true, IsTrue};
ghost use Rattle.lower_scratch.specs.Rows.{Enters, is_set, row_at};

/// A body: its places, and for each of them which cells hold what the body wrote there or what was set before it.
#[derive(Debug, Drop)]
pub(crate) struct Body {
    pub begin: usize,
    /// The place behind its last one.
    pub end: usize,
    /// The first cell of which the rows say something, behind the state cells.
    pub low: u32,
    /// For each place from the begin on and each cell from the first one on whether the cell is set there.
    pub rows: Vec<Vec<bool>>,
}

/// How a body ends.
#[derive(Clone, Copy, Debug, PartialEq, Eq)]
pub enum Last {
    /// As a guard.
    Answer,
    /// As a firing.
    Done,
    /// As a routine.
    Return,
}

/// Which cells behind the state cells are set at a place.
pub(crate) fn row_at<'a>(body: &'a Body, place: usize) -> &'a [bool]
    ensures { result.now ≡ row_at body.entry.now place }
{
    match body.rows.get(place.saturating_sub(body.begin)) {
        Some(row) => row,
        None => &[],
    }
}

/// Whether a cell is set at a place.
pub(crate) fn is_set(kept: u32, body: &Body, place: usize, cell: usize) -> bool
    ensures { result ≡ is_set kept body.now place cell }
{
    if cell < kept as usize {
        return true;
    }
    if cell < body.low as usize {
        return false;
    }
    match row_at(body, place).get(cell - body.low as usize) {
        Some(set) => *set,
        None => false,
    }
}

/// Whether each of so many cells is set at a place.
pub(crate) fn are_set(kept: u32, body: &Body, place: usize, cell: u32, count: u32) -> bool
    ensures { IsTrue result → (k : ℕ) → k < count → is_set kept body.now place (cell + k) ≡ true }
{
    for k in 0..count as usize {
        if !is_set(kept, body, place, cell as usize + k) {
            return false;
        }
    }
    true
}

/// Whether only state cells are set at a place.
pub(crate) fn none_is_set(kept: u32, body: &Body, place: usize) -> bool
    ensures { IsTrue result → (c : ℕ) → is_set kept body.now place c ≡ true → c < kept }
{
    let row = row_at(body, place);
    for k in 0..row.len() {
        if row[k] {
            return false;
        }
    }
    true
}

/// Whether what is to be set when a body is called is set at a place of another one.
pub(crate) fn enters(kept: u32, callee: &Body, body: &Body, place: usize) -> bool
    ensures { IsTrue result → Enters kept callee.now body.now place }
{
    let row = row_at(callee, callee.begin);
    for k in 0..row.len() {
        if row[k] && !is_set(kept, body, place, callee.low as usize + k) {
            return false;
        }
    }
    true
}
