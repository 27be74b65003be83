//! What runs batches.
ghost use Rattle.std.specs.Prelude.{◌≡◌, List};
ghost use Rattle.std.specs.List.{AllByRecursion};
ghost use Rattle.request_types.specs.declared.batches.Item.{Item};
ghost use Rattle.request_types.specs.Batches.{StandTogether};
ghost use Rattle.request_types.specs.Fits.{ItemFits};
ghost use Rattle.line_pipeline.specs.declared.outcomes.Outcome.{Outcome};
ghost use Rattle.table_rows.specs.Database.{Database, database_of};
ghost use Rattle.batch_answers.specs.Outcomes.{Comes};

use line_pipeline::Outcome;
use request_types::Batch;
use std::alloc::Global;
use table_rows::Tables;

/// Tables on which a batch is run as a whole, or not at all.
pub trait RunsBatches {
    // The rows as they are.
    ghost rows: { Self → Database };

    // What is asked before a batch, and holds behind it.
    ghost sound: { Self → Type 0 };

    // What else is said of a batch of these items that came to this.
    ghost ran: { Self → List Item → Outcome → Self → Type 0 };

    /// Carries out the items of a batch in order, each on the rows that the one before it left, or
    /// takes all of it back.
    fn run_batch(&mut self, alloc: Global, batch: &Batch) -> Outcome
        requires items { AllByRecursion (ItemFits (rows self.old).schema) batch.now.items }
        requires together { StandTogether batch.now.items }
        requires sound { sound self.old }
        ensures comes { Comes result (rows self.old) batch.now.items (rows self.new) }
        ensures schema { (rows self.new).schema ≡ (rows self.old).schema }
        ensures ran { ran self.old batch.now.items result self.new }
        ensures sound { sound self.new };

    fn tables(&self) -> &Tables
        ensures { database_of result.now ≡ rows self.now };
}
