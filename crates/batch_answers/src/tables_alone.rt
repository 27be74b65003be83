//! Tables without a journal.
ghost use Rattle.std.specs.Prelude.{◌≡◌, ◌≢◌, ◌≤◌, IfOk, ⊤};
ghost use Rattle.line_pipeline.specs.declared.outcomes.Outcome.TheVariants as outcomes;
ghost use Rattle.row_types.specs.Valid.{IsValid};
ghost use Rattle.table_rows.specs.Database.{database_of, empty_database};
ghost use Rattle.table_rows.specs.Sizes.{most_bytes};

use crate::batches::run_batch;
use crate::runs_batches::RunsBatches;
use line_pipeline::Outcome;
use request_types::Batch;
use row_types::Schema;
use std::alloc::{AllocError, Global};
use std::marker::Model;
use table_rows::{Tables, UndoList};

/// Tables that no journal stands behind. What they hold is gone with them.
#[derive(Drop)]
pub struct TablesAlone {
    schema: Schema,
    tables: Tables,
    undo: UndoList,
}

impl Model for TablesAlone {
    ghost use Rattle.std.specs.Prelude.{◌≡◌};
    ghost use Rattle.table_rows.specs.Rows.{State};

    ghost Value = { State };

    ghost view = { λ t. t.tables };

    ghost invariant = { λ t. t.schema ≡ t.tables.schema };
}

impl TablesAlone {
    /// Tables without a row, which may fill so many bytes.
    pub fn new(alloc: Global, schema: &Schema, bytes_max: u64) -> Result<TablesAlone, AllocError>
        requires schema { IsValid schema.now }
        requires bytes { bytes_max ≤ most_bytes }
        ensures { IfOk result (λ tables.
            database_of tables ≡ empty_database schema.now bytes_max) }
    {
        let own = schema.copy(alloc)?;
        Ok(TablesAlone {
            schema: own,
            tables: Tables::new(alloc, schema, bytes_max)?,
            undo: UndoList::list_new(alloc),
        })
    }
}

impl RunsBatches for TablesAlone {
    ghost rows = { λ t. database_of t };

    ghost sound = { λ _. ⊤ };

    ghost ran = { λ _ _ outcome _. outcome ≢ outcomes.DiskFault };

    fn run_batch(&mut self, alloc: Global, batch: &Batch) -> Outcome {
        let result = run_batch(alloc, &mut self.tables, &self.schema, batch, &mut self.undo);
        self.undo.clear();
        match result {
            Ok(replies) => Outcome::Done(replies),
            Err(AllocError) => Outcome::NoMemory,
        }
    }

    fn tables(&self) -> &Tables {
        &self.tables
    }
}
