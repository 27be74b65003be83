//! Expressions as they grow, with their depth.
ghost use Rattle.std.specs.Prelude.{◌≡◌};
ghost use Rattle.sql_parse.specs.Input.{Makes};
ghost use Rattle.sql_parse.specs.Trees as spec;

use crate::faults::Unread;
use request_types::FilterOp;
use row_types::List;
use sql_value::{ArithOp, Expr};
use sqlite_items::Boxed;
use std::alloc::Global;

/// The greatest depth of an expression.
const MOST_DEPTH: u32 = 1000;

/// An expression, and its depth: 1 of a literal or a column, else one more than that of its deepest
/// operand or listed value. It is a condition, or else a value.
#[derive(Drop)]
pub(crate) struct Tree {
    pub expr: Expr,
    pub depth: u32,
    pub is_condition: bool,
}

/// A literal or a column.
pub(crate) fn leaf(expr: Expr) -> Tree
    ensures { result ≡ spec.leaf expr }
{
    Tree {
        expr,
        depth: 1,
        is_condition: false,
    }
}

// The part above operands of which the deepest is so deep, if they are of the sort that it asks
// for.
fn above(is_condition: bool, stand: bool, expr: Expr, deepest: u32) -> Result<Tree, Unread>
    ensures { Makes (spec.above is_condition stand expr deepest) result }
{
    if stand && deepest < MOST_DEPTH {
        Ok(Tree {
            expr,
            depth: deepest + 1,
            is_condition,
        })
    } else {
        Err(Unread::Syntax)
    }
}

fn is_met(tree: &Tree) -> bool
    ensures { result ≡ spec.is_met tree.now }
{
    tree.is_condition
}

fn is_worth(tree: &Tree) -> bool
    ensures { result ≡ spec.is_worth tree.now }
{
    !tree.is_condition
}

/// The same, where a value has to stand.
pub(crate) fn as_worth(tree: Tree) -> Result<Tree, Unread>
    ensures { Makes (spec.must spec.is_worth tree) result }
{
    if is_worth(&tree) {
        Ok(tree)
    } else {
        Err(Unread::Syntax)
    }
}

/// The same, where a condition has to stand.
pub(crate) fn as_condition(tree: Tree) -> Result<Tree, Unread>
    ensures { Makes (spec.must spec.is_met tree) result }
{
    if is_met(&tree) {
        Ok(tree)
    } else {
        Err(Unread::Syntax)
    }
}

/// The other sign.
pub(crate) fn negate(alloc: Global, a: Tree) -> Result<Tree, Unread>
    ensures { Makes (spec.negate a) result }
{
    let stand = is_worth(&a);
    above(
        false,
        stand,
        Expr::Negate(Boxed::new(alloc, a.expr)?),
        a.depth,
    )
}

/// A sum, difference or product.
pub(crate) fn arith(alloc: Global, op: ArithOp, a: Tree, b: Tree) -> Result<Tree, Unread>
    ensures { Makes (spec.arith op a b) result }
{
    let stand = is_worth(&a) && is_worth(&b);
    let deepest = a.depth.max(b.depth);
    let expr = Expr::Arith(op, Boxed::new(alloc, a.expr)?, Boxed::new(alloc, b.expr)?);
    above(false, stand, expr, deepest)
}

/// A comparison.
pub(crate) fn compare(alloc: Global, op: FilterOp, a: Tree, b: Tree) -> Result<Tree, Unread>
    ensures { Makes (spec.compare op a b) result }
{
    let stand = is_worth(&a) && is_worth(&b);
    let deepest = a.depth.max(b.depth);
    let expr = Expr::Compare(op, Boxed::new(alloc, a.expr)?, Boxed::new(alloc, b.expr)?);
    above(true, stand, expr, deepest)
}

/// IS NULL.
pub(crate) fn is_null(alloc: Global, a: Tree) -> Result<Tree, Unread>
    ensures { Makes (spec.is_null a) result }
{
    let stand = is_worth(&a);
    above(
        true,
        stand,
        Expr::IsNull(Boxed::new(alloc, a.expr)?),
        a.depth,
    )
}

/// IN a list, of which the deepest is so deep.
pub(crate) fn in_list(alloc: Global, a: Tree, all: List<Expr>, deepest: u32) -> Result<Tree, Unread>
    ensures { Makes (spec.in_list a all deepest) result }
{
    let stand = is_worth(&a);
    let deepest = a.depth.max(deepest);
    above(
        true,
        stand,
        Expr::InList(Boxed::new(alloc, a.expr)?, all),
        deepest,
    )
}

/// NOT.
pub(crate) fn opposite(alloc: Global, a: Tree) -> Result<Tree, Unread>
    ensures { Makes (spec.opposite a) result }
{
    let stand = is_met(&a);
    above(true, stand, Expr::Not(Boxed::new(alloc, a.expr)?), a.depth)
}

/// AND.
pub(crate) fn both(alloc: Global, a: Tree, b: Tree) -> Result<Tree, Unread>
    ensures { Makes (spec.both a b) result }
{
    let stand = is_met(&a) && is_met(&b);
    let deepest = a.depth.max(b.depth);
    let expr = Expr::And(Boxed::new(alloc, a.expr)?, Boxed::new(alloc, b.expr)?);
    above(true, stand, expr, deepest)
}

/// OR.
pub(crate) fn either(alloc: Global, a: Tree, b: Tree) -> Result<Tree, Unread>
    ensures { Makes (spec.either a b) result }
{
    let stand = is_met(&a) && is_met(&b);
    let deepest = a.depth.max(b.depth);
    let expr = Expr::Or(Boxed::new(alloc, a.expr)?, Boxed::new(alloc, b.expr)?);
    above(true, stand, expr, deepest)
}
