//! A cell for each leaf.

ghost use Rattle.std.specs.Prelude.{◌≡◌, ◌≤◌, ◌<◌, IfOk, Some, false, length, map, slice_get, true, vec_items};
ghost use Rattle.std.specs.Arc.{arc_value};
ghost use Rattle.actor_cell.specs.Core.{seen};
ghost use Rattle.net_cells.specs.Cells.{AreCellsOf};
ghost use Rattle.net_cells.specs.Runnable.{CanRunWith};
ghost use Rattle.net_cells.specs.Tables.{AreCellsBy, AreRoomy, HasRowsOf, IsCellBy, row_at};

use crate::table::rooms_of;
use actor_cell::Cell;
use lowered_actor::Lowered;
use net_model::Link;
use rvc_base::Memory;
use std::alloc::Global;
use std::sync::Arc;

/// One of these lowered actors.
fn code_at(codes: &[Arc<Lowered>], i: usize) -> &Arc<Lowered>
    requires { i < length codes.now }
    ensures { slice_get (map arc_value codes.now) i ≡ Some (arc_value result.now) }
{
    &codes[i]
}

/// A row of a table.
fn row_at(table: &[Vec<u32>], i: usize) -> &[u32]
    requires { i < length table.now }
    ensures { result.now ≡ row_at (map vec_items table.now) i }
{
    &table[i]
}

/// The cell of one of these lowered actors, whose queues have the rooms of its rows.
fn cell_at(
    alloc: Global,
    codes: &[Arc<Lowered>],
    ins: &[Vec<u32>],
    outs: &[Vec<u32>],
    burst: u32,
    i: usize,
) -> Result<Cell, Memory>
    requires burst { 1 ≤ burst }
    requires there { i < length codes.now }
    requires ins { HasRowsOf true (map arc_value codes.now) (map vec_items ins.now) }
    requires outs { HasRowsOf false (map arc_value codes.now) (map vec_items outs.now) }
    requires roomy { AreRoomy (map vec_items ins.now) }
    ensures { IfOk result (λ cell. IsCellBy (map arc_value codes.now) (map vec_items ins.now)
        (map vec_items outs.now) burst i (seen cell)) }
{
    let code = Arc::clone(code_at(codes, i))?;
    Cell::new(alloc, code, row_at(ins, i), row_at(outs, i), burst)
}

/// A cell of each of these lowered actors, whose queues have the rooms of its rows.
fn cells_by(
    alloc: Global,
    codes: &[Arc<Lowered>],
    ins: &[Vec<u32>],
    outs: &[Vec<u32>],
    burst: u32,
) -> Result<Vec<Cell>, Memory>
    requires burst { 1 ≤ burst }
    requires ins { HasRowsOf true (map arc_value codes.now) (map vec_items ins.now) }
    requires outs { HasRowsOf false (map arc_value codes.now) (map vec_items outs.now) }
    requires roomy { AreRoomy (map vec_items ins.now) }
    ensures { IfOk result (λ cells. AreCellsBy (length codes.now) (map arc_value codes.now)
        (map vec_items ins.now) (map vec_items outs.now) burst (map seen cells.items)) }
{
    let mut cells = Vec::with_capacity(alloc, codes.len())?;
    for i in 0..codes.len() {
        let cell = cell_at(alloc, codes, ins, outs, burst, i)?;
        cells.push(cell)?;
    }
    Ok(cells)
}

/// The cells of a network whose leaves are these lowered actors, in instance order, joined by these links. Each cell is in
/// its first state and holds nothing. Its queues are for as many tokens as the links at its ports can hold, those of
/// links between leaves for as many as they may grow to (`grow`, 0 if none may grow) if these are more; and its journal
/// is for `burst` firings.
///
/// # Errors
///
/// `Memory` if memory runs out.
pub fn make_cells(
    alloc: Global,
    codes: &[Arc<Lowered>],
    links: &[Link],
    burst: u32,
    grow: u32,
) -> Result<Vec<Cell>, Memory>
    requires burst { 1 ≤ burst }
    ensures cells { IfOk result (λ cells. AreCellsOf (map arc_value codes.now) links.now burst grow
        (map seen cells.items)) }
    ensures can_run { IfOk result (λ cells. CanRunWith (map arc_value codes.now) links.now burst grow
        (map seen cells.items)) }
{
    let ins = rooms_of(alloc, codes, links, true, grow, 1)?;
    let outs = rooms_of(alloc, codes, links, false, grow, 0)?;
    cells_by(alloc, codes, &ins, &outs, burst)
}
