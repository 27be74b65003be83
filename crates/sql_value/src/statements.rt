//! What a line of SQL asks for.
ghost use Rattle.std.specs.Prelude.{◌≡◌, IfOk};

use crate::changes::{Assign, Cell, copy_assigns, copy_groups};
use crate::copies::{copy_condition, copy_exprs};
use crate::exprs::Expr;
use crate::orders::{Limit, OrderKey, copy_order};
use row_types::List;
use std::alloc::{AllocError, Global};

/// The rows that meet the condition, in order and cut; of each row the items.
#[derive(Debug, Drop)]
pub struct SelectSpec {
    pub table: u32,
    pub items: List<Expr>,
    pub condition: Option<Expr>,
    pub order: List<OrderKey>,
    pub limit: Option<Limit>,
}

impl SelectSpec {
    /// An equal SELECT with memory of its own.
    pub fn copy(&self, alloc: Global) -> Result<SelectSpec, AllocError>
        ensures { IfOk result (λ copy. copy ≡ self.now) }
    {
        Ok(SelectSpec {
            table: self.table,
            items: copy_exprs(alloc, &self.items)?,
            condition: copy_condition(alloc, &self.condition)?,
            order: copy_order(alloc, &self.order)?,
            limit: self.limit,
        })
    }
}

/// Rows to be inserted: each group has a cell for each of the columns.
#[derive(Debug, Drop)]
pub struct InsertStmt {
    pub table: u32,
    pub columns: List<u32>,
    pub groups: List<List<Cell>>,
}

impl InsertStmt {
    /// An equal INSERT with memory of its own.
    pub fn copy(&self, alloc: Global) -> Result<InsertStmt, AllocError>
        ensures { IfOk result (λ copy. copy ≡ self.now) }
    {
        Ok(InsertStmt {
            table: self.table,
            columns: List::of_vec(Vec::from_slice(alloc, self.columns.as_slice())?),
            groups: copy_groups(alloc, &self.groups)?,
        })
    }
}

/// A change of the rows that meet the condition, in order and cut. A later assignment sees what an
/// earlier one left.
#[derive(Debug, Drop)]
pub struct UpdateStmt {
    pub table: u32,
    pub assigns: List<Assign>,
    pub condition: Option<Expr>,
    pub order: List<OrderKey>,
    pub limit: Option<Limit>,
}

impl UpdateStmt {
    /// An equal UPDATE with memory of its own.
    pub fn copy(&self, alloc: Global) -> Result<UpdateStmt, AllocError>
        ensures { IfOk result (λ copy. copy ≡ self.now) }
    {
        Ok(UpdateStmt {
            table: self.table,
            assigns: copy_assigns(alloc, &self.assigns)?,
            condition: copy_condition(alloc, &self.condition)?,
            order: copy_order(alloc, &self.order)?,
            limit: self.limit,
        })
    }
}

/// The end of the rows that meet the condition, in order and cut.
#[derive(Debug, Drop)]
pub struct DeleteStmt {
    pub table: u32,
    pub condition: Option<Expr>,
    pub order: List<OrderKey>,
    pub limit: Option<Limit>,
}

impl DeleteStmt {
    /// An equal DELETE with memory of its own.
    pub fn copy(&self, alloc: Global) -> Result<DeleteStmt, AllocError>
        ensures { IfOk result (λ copy. copy ≡ self.now) }
    {
        Ok(DeleteStmt {
            table: self.table,
            condition: copy_condition(alloc, &self.condition)?,
            order: copy_order(alloc, &self.order)?,
            limit: self.limit,
        })
    }
}

/// What a line asks for.
#[derive(Debug, Drop)]
pub enum Statement {
    Select(SelectSpec),
    Insert(InsertStmt),
    Update(UpdateStmt),
    Delete(DeleteStmt),
}

impl Statement {
    /// An equal statement with memory of its own.
    pub fn copy(&self, alloc: Global) -> Result<Statement, AllocError>
        ensures { IfOk result (λ copy. copy ≡ self.now) }
    {
        match self {
            Statement::Select(select) => Ok(Statement::Select(select.copy(alloc)?)),
            Statement::Insert(insert) => Ok(Statement::Insert(insert.copy(alloc)?)),
            Statement::Update(update) => Ok(Statement::Update(update.copy(alloc)?)),
            Statement::Delete(delete) => Ok(Statement::Delete(delete.copy(alloc)?)),
        }
    }
}
