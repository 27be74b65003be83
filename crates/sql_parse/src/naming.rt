//! Whether a statement names tables and columns that are there.
ghost use Rattle.std.specs.Prelude.{◌≡◌, map, nat_lt, nat_eq};
ghost use Rattle.std.specs.List.{list_all};
ghost use Rattle.row_types.specs.Valid.{are_distinct};
ghost use Rattle.sql_parse.specs.Standing as spec;

use row_types::{List, Schema};
use sql_value::{Assign, Cell, Expr, InsertStmt, OrderKey, Statement};

/// Whether it names a table of the schema, columns of that table, no column twice in an INSERT, and
/// none in its groups.
pub(crate) fn names_stand(schema: &Schema, statement: &Statement) -> bool
    ensures { result ≡ spec.names_stand schema.now statement.now }
{
    match schema.tables.as_slice().get(table_of(statement) as usize) {
        None => false,
        Some(table) => statement_within(table.columns.as_slice().len(), statement),
    }
}

/// The number of the table that a statement is about.
pub(crate) fn table_of(statement: &Statement) -> u32
    ensures { result ≡ spec.table_of statement.now }
{
    match statement {
        Statement::Select(select) => select.table,
        Statement::Insert(insert) => insert.table,
        Statement::Update(update) => update.table,
        Statement::Delete(delete) => delete.table,
    }
}

fn statement_within(most: usize, statement: &Statement) -> bool
    ensures { result ≡ spec.statement_within most statement.now }
{
    match statement {
        Statement::Select(select) => {
            items_within(most, select.items.as_slice())
                && rows_within(most, &select.condition, &select.order)
        }
        Statement::Insert(insert) => insert_within(most, insert),
        Statement::Update(update) => {
            assigns_within(most, update.assigns.as_slice())
                && rows_within(most, &update.condition, &update.order)
        }
        Statement::Delete(delete) => rows_within(most, &delete.condition, &delete.order),
    }
}

fn items_within(most: usize, items: &[Expr]) -> bool
    ensures { result ≡ list_all (spec.is_within most) items.now }
{
    items.iter().all(|item| is_within(most, item))
}

fn rows_within(most: usize, condition: &Option<Expr>, order: &List<OrderKey>) -> bool
    ensures { result ≡ spec.rows_within most condition.now order.now }
{
    keys_within(most, order.as_slice()) && condition_within(most, condition)
}

fn condition_within(most: usize, condition: &Option<Expr>) -> bool
    ensures { result ≡ spec.condition_within most condition.now }
{
    match condition {
        None => true,
        Some(expr) => is_within(most, expr),
    }
}

fn keys_within(most: usize, order: &[OrderKey]) -> bool
    ensures { result ≡ spec.keys_within most order.now }
{
    order.iter().all(|key| (key.column as usize) < most)
}

fn assigns_within(most: usize, assigns: &[Assign]) -> bool
    ensures { result ≡ spec.assigns_within most assigns.now }
{
    assigns.iter().all(|assign| (assign.column as usize) < most && cell_within(most, &assign.cell))
}

fn insert_within(most: usize, insert: &InsertStmt) -> bool
    ensures { result ≡ spec.insert_within most insert.now }
{
    let columns = insert.columns.as_slice();
    are_within(most, columns) && are_distinct(columns) && groups_within(insert.groups.as_slice())
}

fn are_within(most: usize, places: &[u32]) -> bool
    ensures { result ≡ list_all (λ place. nat_lt place most) places.now }
{
    places.iter().all(|place| (*place as usize) < most)
}

// Whether none comes twice.
fn are_distinct(places: &[u32]) -> bool
    ensures { result ≡ are_distinct nat_eq places.now }
{
    let mut left = places;
    while let [first, rest @ ..] = left {
        if rest.contains(first) {
            return false;
        }
        left = rest;
    }
    true
}

fn groups_within(groups: &[List<Cell>]) -> bool
    ensures { result ≡ list_all (λ cells. list_all (spec.cell_within 0) cells) groups.now }
{
    groups.iter().all(|group| group_within(group.as_slice()))
}

fn group_within(cells: &[Cell]) -> bool
    ensures { result ≡ list_all (spec.cell_within 0) cells.now }
{
    cells.iter().all(|cell| cell_within(0, cell))
}

fn cell_within(most: usize, cell: &Cell) -> bool
    ensures { result ≡ spec.cell_within most cell.now }
{
    match cell {
        Cell::Preset => true,
        Cell::Of(expr) => is_within(most, expr),
    }
}

#[cycle(within)]
fn all_within(most: usize, exprs: &List<Expr>) -> bool
    ensures { result ≡ spec.are_all (map (spec.is_within most) exprs.now) }
{
    for expr in exprs.as_slice() {
        if !is_within(most, expr) {
            return false;
        }
    }
    true
}

// Whether an expression names columns below this place alone.
#[cycle(within)]
fn is_within(most: usize, expr: &Expr) -> bool
    ensures { result ≡ spec.is_within most expr.now }
{
    match expr {
        Expr::Literal(_) => true,
        Expr::Column(place) => (*place as usize) < most,
        Expr::Negate(a) | Expr::IsNull(a) | Expr::Not(a) => is_within(most, a.get()),
        Expr::Arith(_, a, b) => is_within(most, a.get()) && is_within(most, b.get()),
        Expr::Compare(_, a, b) => is_within(most, a.get()) && is_within(most, b.get()),
        Expr::And(a, b) | Expr::Or(a, b) => is_within(most, a.get()) && is_within(most, b.get()),
        Expr::InList(a, all) => is_within(most, a.get()) && all_within(most, all),
    }
}
