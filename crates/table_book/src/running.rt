//! A book runs batches.
ghost use Rattle.table_book.specs.Books.{rows, IsKept};
ghost use Rattle.table_book.specs.Running.{RanOn};

use crate::book::Book;
use batch_answers::RunsBatches;
use hs_disk::Disk;
use line_pipeline::Outcome;
use request_types::Batch;
use std::alloc::Global;
use table_rows::Tables;

impl<D: Disk> RunsBatches for Book<D> {
    ghost rows = { λ book. rows book };

    ghost sound = { λ book. D.tells → IsKept D.seen D.may_leave book };

    ghost ran = { λ book items result after. RanOn D.tells D.seen D.may_leave D.moment D.left_at
        D.fault_count D.which book items result after };

    fn run_batch(&mut self, alloc: Global, batch: &Batch) -> Outcome {
        Book::run_batch(self, alloc, batch)
    }

    fn tables(&self) -> &Tables {
        Book::tables(self)
    }
}
