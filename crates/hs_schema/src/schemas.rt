//! A schema as it grows line by line.
ghost use Rattle.std.specs.Prelude.{◌≡◌, [], IfOk, OnErr};
ghost use Rattle.row_types.specs.declared.tables.Schema.{Schema as Held};
ghost use Rattle.row_types.specs.Valid.{IsValid};
ghost use Rattle.hs_schema.specs.Adding.{Adds};
ghost use Rattle.hs_schema.specs.Spelling.{spelled};

use crate::faults::{LineFault, SchemaFault};
use crate::spelling::push_table;
use crate::tables::table_at;
use hs_token::Token;
use row_types::{List, Schema};
use std::alloc::{AllocError, Global};

/// The schema without a table, which is valid. Takes no memory.
pub fn empty(alloc: Global) -> Schema
    ensures tables { result.tables ≡ [] }
    ensures valid { IsValid result }
{
    Schema {
        tables: List::new(alloc),
    }
}

/// What is done with a schema by its table lines.
pub trait SchemaLines {
    /// The schema, however it is held.
    ghost schema: { Self → Held };

    /// Adds the table of a line behind the others.
    fn add_table(&mut self, alloc: Global, line: &[Token]) -> Result<(), SchemaFault>
        requires { IsValid (schema self.old) }
        ensures exact { Adds (schema self.old).tables (schema self.new).tables line.now result }
        ensures err { OnErr result (schema self.new ≡ schema self.old) }
        ensures valid { IsValid (schema self.new) };

    /// The table lines in order, each with its LF.
    fn spell(&self, alloc: Global) -> Result<Vec<u8>, AllocError>
        ensures { IfOk result (λ text. text.items ≡ spelled (schema self.now)) };
}

impl SchemaLines for Schema {
    ghost schema = { λ schema. schema };

    fn add_table(&mut self, alloc: Global, line: &[Token]) -> Result<(), SchemaFault> {
        let tables = self.tables.as_slice();
        match table_at(alloc, tables, line) {
            Ok(table) => Ok(self.tables.push(table)?),
            Err(LineFault::NoMemory) => Err(SchemaFault::NoMemory),
            Err(LineFault::Broken(rule, token)) => Err(SchemaFault::Broken {
                rule,
                table: tables.len() as u32,
                token,
            }),
        }
    }

    fn spell(&self, alloc: Global) -> Result<Vec<u8>, AllocError> {
        let mut out = Vec::new(alloc);
        for table in self.tables.as_slice() {
            push_table(alloc, &mut out, table)?;
        }
        Ok(out)
    }
}
