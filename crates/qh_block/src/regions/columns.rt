//! The columns of a grid. Each has three cells of a hull: the middle, which is inside as far as a box can be, and the
//! spaces above and below it, which may be partly inside.
ghost use Rattle.std.specs.{Prelude.◌≡◌, Prelude.IfOk, Prelude.IsTrue, List.All};
ghost use Rattle.qh_block.specs.contract.Cells.{IsCellOf, HoldsPoint};

use crate::regions::bounds::Bounds;
use crate::regions::cells::Cell;
use crate::regions::coarse_planes::CoarsePlane;
use crate::regions::grid::{Grid, Square};
use crate::regions::heights::Heights;
use crate::regions::id_set::IdSet;
use crate::regions::region::Region;
use crate::regions::sieves::Sieve;
use qh_model::{Memory, Point};
use std::alloc::{AllocError, Global};

/// Planes slightly below those of a hull, and the cells of the columns of a grid between them, quarter by quarter. Each
/// column has first the middle, then the cell above it, then the cell below it.
#[derive(Drop)]
pub struct Columns {
    grid: Grid,
    /// The planes. The cells refer to them by their indices here.
    pub planes: Vec<CoarsePlane>,
    /// The cells, three for each column, in the order of the columns.
    pub cells: Vec<Cell>,
}

/// Planes, and the grid of the columns whose cells lie between them.
#[derive(Clone, Copy, Drop)]
pub struct Plan<'a> {
    /// The planes between which the cells lie.
    pub planes: &'a [CoarsePlane],
    /// The grid of the columns.
    pub grid: &'a Grid,
    /// The grid has 2 to this power columns along each axis.
    pub side_bits: u32,
}

/// Returns the part of a cell between these heights.
fn cell_at(
    alloc: Global,
    planes: &[CoarsePlane],
    whole: &Cell,
    heights: Heights,
) -> Result<Cell, AllocError>
    ensures { IfOk result (λ c. IsCellOf planes.now whole.now → IsCellOf planes.now c) }
{
    if heights.is_empty() {
        return Ok(Cell::none(alloc));
    }
    whole.part(alloc, planes, &heights.cut(&whole.bounds))
}

/// Returns the part of a cell over a square of columns, as high and as low as the planes near it allow.
fn cell_over(
    alloc: Global,
    planes: &[CoarsePlane],
    whole: &Cell,
    square: &Bounds,
) -> Result<Cell, AllocError>
    ensures { IfOk result (λ c. IsCellOf planes.now whole.now → IsCellOf planes.now c) }
{
    let part = whole.part(alloc, planes, square)?;
    let reached = Heights::reached(planes, &part.near, &part.bounds);
    if reached.is_empty() {
        return Ok(Cell::none(alloc));
    }
    let bounds = reached.cut(&part.bounds);
    Ok(part.within(&bounds))
}

/// Appends the three cells of a column to a list.
fn push_cells(
    alloc: Global,
    planes: &[CoarsePlane],
    column: &Cell,
    cells: &mut Vec<Cell>,
) -> Result<(), AllocError>
    ensures { IfOk result (λ _. IsCellOf planes.now column.now → All (IsCellOf planes.now) cells.old.items → All (IsCellOf planes.now) cells.new.items) }
{
    let inside = Heights::inside(planes, &column.near, &column.bounds);
    let reached = Heights::reached(planes, &column.near, &column.bounds);
    let (middle, above, below) = if inside.is_empty() {
        (reached, Heights::none(), Heights::none())
    } else {
        (inside, reached.above(&inside), reached.under(&inside))
    };
    cells.push(cell_at(alloc, planes, column, middle)?)?;
    cells.push(cell_at(alloc, planes, column, above)?)?;
    cells.push(cell_at(alloc, planes, column, below)?)?;
    Ok(())
}

/// Appends the cells of all columns of a square to a list, computed from one cell that contains them.
fn push_square(
    alloc: Global,
    plan: Plan,
    square: &Square,
    whole: &Cell,
    cells: &mut Vec<Cell>,
) -> Result<(), AllocError>
    ensures { let is_cell = IsCellOf plan.entry.planes.now in
        IfOk result (λ _. is_cell whole.now → All is_cell cells.old.items → All is_cell cells.new.items) }
{
    let Some(bits) = square.bits.checked_sub(1) else {
        return push_cells(alloc, plan.planes, whole, cells);
    };
    for number in 0..4u32 {
        let quarter = square.quarter(bits, number);
        let part = cell_over(alloc, plan.planes, whole, &plan.grid.bounds(&quarter))?;
        push_square(alloc, plan, &quarter, &part, cells)?;
    }
    Ok(())
}

/// Returns the cells of all columns, quarter by quarter.
pub fn cells_between(alloc: Global, plan: Plan) -> Result<Vec<Cell>, Memory>
    ensures { IfOk result (λ v. All (IsCellOf plan.entry.planes.now) v.items) }
{
    let whole = Cell::whole(alloc, plan.planes.len())?;
    let square = Square::whole(plan.side_bits);
    let mut cells = Vec::with_capacity(alloc, square.columns().saturating_mul(3))?;
    push_square(alloc, plan, &square, &whole, &mut cells)?;
    Ok(cells)
}

/// Returns cells of the quarters of the grid with these numbers, quarter by quarter; which ones is not specified.
pub fn cells_of_quarters(alloc: Global, plan: Plan, numbers: &[u32]) -> Result<Vec<Cell>, Memory>
    ensures { IfOk result (λ v. All (IsCellOf plan.entry.planes.now) v.items) }
{
    let whole = Cell::whole(alloc, plan.planes.len())?;
    let square = Square::whole(plan.side_bits);
    let bits = plan.side_bits.saturating_sub(1);
    let mut cells = Vec::new(alloc);
    for number in numbers {
        let quarter = square.quarter(bits, *number);
        let part = cell_over(alloc, plan.planes, &whole, &plan.grid.bounds(&quarter))?;
        push_square(alloc, plan, &quarter, &part, &mut cells)?;
    }
    Ok(cells)
}

impl Columns {
    /// Returns the columns over the points of ids, 2 to the power `side_bits` along each axis, with their cells between
    /// planes; a sieve makes the cells. A point that they hold is strictly below each of the planes.
    ///
    /// # Errors
    ///
    /// `Memory` if an allocation failed, or if there are more planes than numbers of 32 bits.
    pub fn between<S: Sieve>(
        sieve: &S,
        alloc: Global,
        planes: Vec<CoarsePlane>,
        set: IdSet,
        side_bits: u32,
    ) -> Result<Columns, Memory>
        requires { S.ready sieve.now }
        ensures planes { IfOk result (λ c. c.planes.items ≡ planes.items) }
        ensures cells { IfOk result (λ c. All (IsCellOf c.planes.items) c.cells.items) }
    {
        let grid = Grid::over(set, side_bits);
        let plan = Plan {
            planes: &planes,
            grid: &grid,
            side_bits,
        };
        let cells = sieve.cells(alloc, plan)?;
        Ok(Columns {
            grid,
            planes,
            cells,
        })
    }

    /// Returns the index of the only cell of a point's column that may hold it.
    fn place(&self, p: Point) -> usize {
        let middle = self.grid.number(p).saturating_mul(3);
        match self.cells.get(middle) {
            Some(cell) if p.z() > cell.bounds.high.z() => middle.saturating_add(1),
            Some(cell) if p.z() < cell.bounds.low.z() => middle.saturating_add(2),
            _ => middle,
        }
    }

    /// Returns true if the only cell of a point's column that may hold it does: the point is in its box and strictly
    /// below all near planes.
    pub fn hold(&self, p: Point) -> bool
        ensures { IsTrue result → HoldsPoint self.now p }
    {
        match self.cells.get(self.place(p)) {
            Some(cell) => cell.holds(&self.planes, p),
            None => false,
        }
    }
}

impl Region for Columns {
    ghost held = { HoldsPoint };

    #[inline(always)]
    fn has(&self, p: Point) -> bool {
        self.hold(p)
    }
}
