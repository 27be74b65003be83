//! What recovery hands out.
use redo_journal::Journal;
use table_rows::Tables;

/// The tables, and the journal that they were read from, which says how many records made them.
#[derive(Drop)]
pub struct Recovered {
    pub tables: Tables,
    pub journal: Journal,
}
