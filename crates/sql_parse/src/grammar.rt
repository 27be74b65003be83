//! How expressions nest: each rule takes the reader of what stands one parenthesis, NOT or sign
//! deeper as a parameter, so that it is proved by itself.
ghost use Rattle.sql_parse.specs.Input.{Reads};
ghost use Rattle.sql_parse.specs.Grammar as spec;
ghost use Rattle.sql_parse.specs.Nests.{Nests};

use crate::faults::Unread;
use crate::tokens::Tokens;
use crate::trees::{Tree, opposite};
use row_types::Column;
use std::alloc::Global;

/// How deep parentheses, NOT and signs may nest.
pub(crate) const MOST_NESTING: u32 = 100;

/// What is read in the place of an operand.
#[derive(Clone, Copy, Debug, PartialEq, Eq)]
pub(crate) enum Level {
    /// A condition, or a value.
    Condition,
    /// What stands behind NOT, and NOT of it.
    Turned,
    /// A value, and no condition.
    Worth,
    /// What stands behind a sign, and the sign of it.
    Signed,
}

/// What the rules of expressions are read with.
#[derive(Clone, Copy)]
pub(crate) struct Grammar<'a, F> {
    pub alloc: Global,
    /// The columns that may be named.
    pub columns: &'a [Column],
    /// How deep what is inside may still nest.
    pub nest: u32,
    pub inner: F,
}

impl<'a, F: Fn(Global, &[Column], &mut Tokens<'_>, u32, Level) -> Result<Tree, Unread>> Grammar<
    'a,
    F,
> {
    /// What stands one parenthesis, NOT or sign deeper.
    pub(crate) fn deeper(&self, tokens: &mut Tokens<'_>, level: Level) -> Result<Tree, Unread>
        requires { Nests self.now.nest (F.pre self.now.inner) (F.post self.now.inner) }
        ensures { Reads
            (spec.expr self.now.columns.now self.now.nest level tokens.old) result tokens.new }
    {
        (self.inner)(self.alloc, self.columns, tokens, self.nest, level)
    }

    #[tactic(auto, unfolding(crate::specs::Grammar::at))]
    fn at(&self, tokens: &mut Tokens<'_>, level: Level) -> Result<Tree, Unread>
        requires { Nests self.now.nest (F.pre self.now.inner) (F.post self.now.inner) }
        ensures { Reads (spec.at self.now.columns.now
            (spec.expr self.now.columns.now self.now.nest) level tokens.old) result tokens.new }
    {
        match level {
            Level::Condition => self.condition(tokens),
            Level::Turned => {
                let a = self.negation(tokens)?;
                opposite(self.alloc, a)
            }
            Level::Worth => self.worth(tokens),
            Level::Signed => self.signed(tokens),
        }
    }
}

/// An expression, in which parentheses, NOT and signs nest less deep than the number.
///
/// It calls itself as deep as they nest.
#[tactic(auto, unfolding(crate::specs::Grammar::expr))]
pub(crate) fn expr(
    alloc: Global,
    columns: &[Column],
    tokens: &mut Tokens<'_>,
    nest: u32,
    level: Level,
) -> Result<Tree, Unread>
    ensures { Reads (spec.expr columns.now nest level tokens.old) result tokens.new }
{
    if nest == 0 {
        return Err(Unread::Syntax);
    }
    Grammar {
        alloc,
        columns,
        nest: nest - 1,
        inner: expr,
    }
    .at(tokens, level)
}
