//! Copies of expressions.
ghost use Rattle.std.specs.Prelude.{◌≡◌, IfOk};

use crate::exprs::Expr;
use row_types::{List, copy_value};
use sqlite_items::Boxed;
use std::alloc::{AllocError, Global};

impl Expr {
    /// An equal expression with memory of its own.
    #[cycle(copy)]
    pub fn copy(&self, alloc: Global) -> Result<Expr, AllocError>
        ensures { IfOk result (λ copy. copy ≡ self.now) }
    {
        match self {
            Expr::Literal(value) => Ok(Expr::Literal(copy_value(alloc, value)?)),
            Expr::Column(place) => Ok(Expr::Column(*place)),
            Expr::Negate(a) => Ok(Expr::Negate(copy_boxed(alloc, a)?)),
            Expr::Arith(op, a, b) => {
                Ok(Expr::Arith(*op, copy_boxed(alloc, a)?, copy_boxed(alloc, b)?))
            }
            Expr::Compare(op, a, b) => {
                Ok(Expr::Compare(*op, copy_boxed(alloc, a)?, copy_boxed(alloc, b)?))
            }
            Expr::IsNull(a) => Ok(Expr::IsNull(copy_boxed(alloc, a)?)),
            Expr::InList(a, all) => {
                Ok(Expr::InList(copy_boxed(alloc, a)?, copy_exprs(alloc, all)?))
            }
            Expr::Not(a) => Ok(Expr::Not(copy_boxed(alloc, a)?)),
            Expr::And(a, b) => Ok(Expr::And(copy_boxed(alloc, a)?, copy_boxed(alloc, b)?)),
            Expr::Or(a, b) => Ok(Expr::Or(copy_boxed(alloc, a)?, copy_boxed(alloc, b)?)),
        }
    }
}

#[cycle(copy)]
fn copy_boxed(alloc: Global, expr: &Boxed<Expr>) -> Result<Boxed<Expr>, AllocError>
    ensures { IfOk result (λ copy. copy ≡ expr.now) }
{
    Boxed::new(alloc, expr.get().copy(alloc)?)
}

/// Equal expressions with memory of their own.
#[cycle(copy)]
pub(crate) fn copy_exprs(alloc: Global, exprs: &List<Expr>) -> Result<List<Expr>, AllocError>
    ensures { IfOk result (λ copies. copies ≡ exprs.now) }
{
    let exprs = exprs.as_slice();
    let mut copies = Vec::with_capacity(alloc, exprs.len())?;
    for expr in exprs {
        copies.push(expr.copy(alloc)?)?;
    }
    Ok(List::of_vec(copies))
}

/// An equal condition with memory of its own.
pub(crate) fn copy_condition(
    alloc: Global,
    condition: &Option<Expr>,
) -> Result<Option<Expr>, AllocError>
    ensures { IfOk result (λ copy. copy ≡ condition.now) }
{
    match condition {
        None => Ok(None),
        Some(expr) => Ok(Some(expr.copy(alloc)?)),
    }
}
