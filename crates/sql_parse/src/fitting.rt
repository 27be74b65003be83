//! Whether the parts of a statement are of the kinds that their places ask for.
ghost use Rattle.std.specs.Prelude.{◌≡◌};
ghost use Rattle.std.specs.List.{list_all};
ghost use Rattle.sql_value.specs.Kinds.{kind_of};
ghost use Rattle.sql_parse.specs.Fitting as spec;

use crate::names::columns_of;
use crate::naming::table_of;
use row_types::{Column, Kind, List, Schema};
use sql_value::{Assign, Cell, Expr, ExprKind, Statement, kind_of};

/// Whether items are values, conditions are conditions, and cells are of their columns' kinds.
pub(crate) fn kinds_fit(schema: &Schema, statement: &Statement) -> bool
    ensures { result ≡ spec.kinds_fit schema.now statement.now }
{
    statement_fits(columns_of(schema, table_of(statement)), statement)
}

fn statement_fits(columns: &[Column], statement: &Statement) -> bool
    ensures { result ≡ spec.statement_fits columns.now statement.now }
{
    match statement {
        Statement::Select(select) => {
            items_fit(columns, select.items.as_slice())
                && condition_fits(columns, &select.condition)
        }
        Statement::Insert(insert) => {
            groups_fit(columns, insert.columns.as_slice(), insert.groups.as_slice())
        }
        Statement::Update(update) => {
            assigns_fit(columns, update.assigns.as_slice())
                && condition_fits(columns, &update.condition)
        }
        Statement::Delete(delete) => condition_fits(columns, &delete.condition),
    }
}

fn items_fit(columns: &[Column], items: &[Expr]) -> bool
    ensures { result ≡ list_all (λ e. spec.is_value (kind_of columns.now e)) items.now }
{
    items.iter().all(|item| is_value(kind_of(columns, item)))
}

fn groups_fit(columns: &[Column], places: &[u32], groups: &[List<Cell>]) -> bool
    ensures { result ≡ list_all (λ cells. spec.group_fits columns.now places.now cells) groups.now }
{
    groups
        .iter()
        .all(|group| group_fits(columns, places, group.as_slice()))
}

// Whether there is a cell for each of the columns, and goes into it.
fn group_fits(columns: &[Column], places: &[u32], cells: &[Cell]) -> bool
    ensures { result ≡ spec.group_fits columns.now places.now cells.now }
{
    let mut left = cells;
    for place in places {
        match left {
            [] => return false,
            [cell, rest @ ..] => {
                if !cell_fits(&[], columns, *place, cell) {
                    return false;
                }
                left = rest;
            }
        }
    }
    left.is_empty()
}

fn assigns_fit(columns: &[Column], assigns: &[Assign]) -> bool
    ensures { result ≡ list_all (λ a. spec.cell_fits columns.now columns.now a.column a.cell)
        assigns.now }
{
    assigns.iter().all(|assign| cell_fits(columns, columns, assign.column, &assign.cell))
}

fn condition_fits(columns: &[Column], condition: &Option<Expr>) -> bool
    ensures { result ≡ spec.condition_fits columns.now condition.now }
{
    match condition {
        None => true,
        Some(expr) => is_truth(kind_of(columns, expr)),
    }
}

// Whether a cell, whose expression may name these columns, is of the kind of the column at the
// place.
fn cell_fits(named: &[Column], columns: &[Column], place: u32, cell: &Cell) -> bool
    ensures { result ≡ spec.cell_fits named.now columns.now place cell.now }
{
    match columns.get(place as usize) {
        None => false,
        Some(column) => match cell {
            Cell::Preset => true,
            Cell::Of(expr) => goes_into(column.kind, kind_of(named, expr)),
        },
    }
}

fn goes_into(kind: Kind, given: Option<ExprKind>) -> bool
    ensures { result ≡ spec.goes_into kind given }
{
    match (kind, given) {
        (_, Some(ExprKind::Null)) => true,
        (Kind::Int, Some(ExprKind::Number)) => true,
        (Kind::Bytes(_), Some(ExprKind::Text)) => true,
        (_, _) => false,
    }
}

fn is_value(given: Option<ExprKind>) -> bool
    ensures { result ≡ spec.is_value given }
{
    match given {
        None | Some(ExprKind::Condition) => false,
        _ => true,
    }
}

fn is_truth(given: Option<ExprKind>) -> bool
    ensures { result ≡ spec.is_truth given }
{
    match given {
        Some(ExprKind::Condition) => true,
        _ => false,
    }
}
