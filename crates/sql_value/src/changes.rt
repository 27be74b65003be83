//! What a cell becomes.
ghost use Rattle.std.specs.Prelude.{◌≡◌, IfOk};

use crate::exprs::Expr;
use row_types::List;
use std::alloc::{AllocError, Global};

/// What a cell becomes: what its column has where an insert leaves it out, or what an expression is
/// worth.
#[derive(Debug, Drop)]
pub enum Cell {
    Preset,
    Of(Expr),
}

impl Cell {
    /// An equal cell with memory of its own.
    pub fn copy(&self, alloc: Global) -> Result<Cell, AllocError>
        ensures { IfOk result (λ copy. copy ≡ self.now) }
    {
        match self {
            Cell::Preset => Ok(Cell::Preset),
            Cell::Of(expr) => Ok(Cell::Of(expr.copy(alloc)?)),
        }
    }
}

/// A column, and what its cell becomes.
#[derive(Debug, Drop)]
pub struct Assign {
    pub column: u32,
    pub cell: Cell,
}

impl Assign {
    /// An equal assignment with memory of its own.
    pub fn copy(&self, alloc: Global) -> Result<Assign, AllocError>
        ensures { IfOk result (λ copy. copy ≡ self.now) }
    {
        Ok(Assign {
            column: self.column,
            cell: self.cell.copy(alloc)?,
        })
    }
}

/// Equal assignments with memory of their own.
pub(crate) fn copy_assigns(
    alloc: Global,
    assigns: &List<Assign>,
) -> Result<List<Assign>, AllocError>
    ensures { IfOk result (λ copies. copies ≡ assigns.now) }
{
    let assigns = assigns.as_slice();
    let mut copies = Vec::with_capacity(alloc, assigns.len())?;
    for assign in assigns {
        copies.push(assign.copy(alloc)?)?;
    }
    Ok(List::of_vec(copies))
}

// Equal cells with memory of their own.
fn copy_cells(alloc: Global, cells: &List<Cell>) -> Result<List<Cell>, AllocError>
    ensures { IfOk result (λ copies. copies ≡ cells.now) }
{
    let cells = cells.as_slice();
    let mut copies = Vec::with_capacity(alloc, cells.len())?;
    for cell in cells {
        copies.push(cell.copy(alloc)?)?;
    }
    Ok(List::of_vec(copies))
}

/// Equal groups with memory of their own.
pub(crate) fn copy_groups(
    alloc: Global,
    groups: &List<List<Cell>>,
) -> Result<List<List<Cell>>, AllocError>
    ensures { IfOk result (λ copies. copies ≡ groups.now) }
{
    let groups = groups.as_slice();
    let mut copies = Vec::with_capacity(alloc, groups.len())?;
    for cells in groups {
        copies.push(copy_cells(alloc, cells)?)?;
    }
    Ok(List::of_vec(copies))
}
