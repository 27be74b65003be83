//! The opening of a journal.
ghost use Rattle.std.specs.Prelude.{◌≡◌, ◌≢◌, ◌+◌, ◌^◌, ◌<◌, ◌≤◌, ◌++◌, ◌∷◌, ℕ, [], None, Some, length, slice_index, IfOk, IfErr, OnOk, IsErrOf};
ghost use Rattle.hs_disk.specs.Cause.{Rose, next_count};
ghost use Rattle.hs_disk.specs.Disk.{LeavesOnly, AllImages, calls_after};
ghost use Rattle.redo_journal.specs.Bytes.{front};
ghost use Rattle.redo_journal.specs.Image.{Contents, IsFresh, StandsFor, nothing};
ghost use Rattle.redo_journal.specs.Gates.{Is, Throughout};
ghost use Rattle.redo_journal.specs.Journal.{StandsOn, IsJournalOn, records};
ghost use Rattle.redo_journal.specs.Opening.{Opens, IsPlainFrom, IsRootedFrom, StandUpTo, contents_of, RefusesImage, RefusesLoad, RefusesReading};

use crate::image::{is_fresh, read_header, read_records, skip_records};
use crate::journal::Journal;
use crate::live::{read_head, read_root};
use crate::make::make;
use crate::opened::Opened;
use crate::refusal::Refusal;
use hs_disk::Disk;
use std::alloc::Global;

// A journal with so many records is not opened.
const MAX_RECORDS: u64 = 1 << 63;

/// Reads the journal on a disk, or makes a new one where nothing was written yet. It begins with a
/// sync. After a failure it may be called again.
pub fn open_on<D: Disk>(
    alloc: Global,
    disk: &mut D,
    schema_text: &[u8],
) -> Result<(Journal, Opened), Refusal>
    requires { length schema_text.now < 2 ^ 32 }

    // What a read gives stands for what is handed out, and so does the journal.
    ensures reads { D.tells → IfOk result (λ opened.
        StandsFor schema_text.now (contents_of opened.1) (D.seen disk.old)) }
    ensures stands { D.tells → IfOk result (λ opened. StandsOn schema_text.now
        (contents_of opened.1) nothing opened.0 (D.seen disk.new) (D.may_leave disk.new)) }
    ensures is_journal { D.tells → IfOk result (λ opened.
        IsJournalOn opened.0 (D.seen disk.new) (D.may_leave disk.new)) }
    ensures places { IfOk result (λ opened.
        StandUpTo opened.0.gate opened.1.records.items) }
    ensures counted { IfOk result (λ opened. (opened.0.first ≡ opened.1.first)
        × (opened.0.since ≡ length opened.1.records.items)) }
    ensures low { IfOk result (λ opened. records opened.0 < 2 ^ 63) }
    ensures quiet { IfOk result (λ opened. opened.0.doubt ≡ None) }
    ensures refused { D.tells → IfErr result (RefusesImage schema_text.now (D.seen disk.old)) }

    // What all images before the call stand for, they stand for at each moment of it and behind it.
    ensures any_moment { D.tells → (contents : Contents)
        → AllImages (StandsFor schema_text.now contents) (D.may_leave disk.old)
        → LeavesOnly D.moment D.left_at disk.old disk.new
        (StandsFor schema_text.now contents) }
    ensures again { D.tells → (contents : Contents)
        → AllImages (StandsFor schema_text.now contents) (D.may_leave disk.old)
        → AllImages (StandsFor schema_text.now contents) (D.may_leave disk.new) }
    ensures among { D.tells → D.may_leave disk.old (D.seen disk.old) }

    // A new journal has its header and a closed gate, after nine changing calls.
    ensures made { D.tells → IsFresh (D.seen disk.old)
        → OnOk result (D.seen disk.new ≡ front schema_text.now [] ++ 0 ∷ []) }
    ensures making { D.tells → IsFresh (D.seen disk.old)
        → OnOk result (D.calls disk.new ≡ calls_after 9 (D.calls disk.old)) }

    // A disk that something was written to is synced and not touched, whatever the answer.
    ensures untouched { D.tells → (IsFresh (D.seen disk.old) → ⊥)
        → D.seen disk.new ≡ D.seen disk.old }
    ensures harmless { D.tells → (IsFresh (D.seen disk.old) → ⊥)
        → LeavesOnly D.moment D.left_at disk.old disk.new (D.may_leave disk.old) }
    ensures reading { D.tells → (IsFresh (D.seen disk.old) → ⊥)
        → D.calls disk.new ≡ next_count (D.calls disk.old) }
    ensures same { D.which disk.new ≡ D.which disk.old }

    // A call of the disk failed exactly where that is the answer.
    ensures later { D.fault_count disk.old ≤ D.fault_count disk.new }
    ensures fault { IsErrOf result Refusal.DiskFault
        → Rose (D.fault_count disk.old) (D.fault_count disk.new) }
    ensures told { IfErr result (λ refusal. refusal ≢ Refusal.DiskFault
        → D.fault_count disk.new ≡ D.fault_count disk.old) }
    ensures faultless { OnOk result (D.fault_count disk.new ≡ D.fault_count disk.old) }
{
    let image = load(alloc, disk)?;
    if is_fresh(&image) {
        let gate = make(disk, schema_text)?;
        let opened = Opened {
            first: 0,
            area: None,
            records: Vec::new(alloc),
        };
        return Ok((Journal::plain(gate, 0), opened));
    }
    read(alloc, &image, schema_text)
}

// Syncs the disk, and reads all of it.
fn load<D: Disk>(alloc: Global, disk: &mut D) -> Result<Vec<u8>, Refusal>
    ensures bytes { D.tells → IfOk result (λ image. image.items ≡ D.seen disk.old) }
    ensures bound { IfOk result (λ image. length image.items < 2 ^ 63) }
    ensures seen { D.tells → D.seen disk.new ≡ D.seen disk.old }
    ensures among { D.tells → D.may_leave disk.old (D.seen disk.old) }
    ensures only { D.tells → OnOk result (Throughout (Is (D.seen disk.old))
        (D.seen disk.new) (D.may_leave disk.new)) }
    ensures moments { D.tells → LeavesOnly D.moment D.left_at disk.old disk.new
        (D.may_leave disk.old) }
    ensures calls { D.tells → D.calls disk.new ≡ next_count (D.calls disk.old) }
    ensures same { D.which disk.new ≡ D.which disk.old }
    ensures err { IfErr result RefusesLoad }
    ensures later { D.fault_count disk.old ≤ D.fault_count disk.new }
    ensures fault { IsErrOf result Refusal.DiskFault
        → Rose (D.fault_count disk.old) (D.fault_count disk.new) }
    ensures told { IfErr result (λ refusal. refusal ≢ Refusal.DiskFault
        → D.fault_count disk.new ≡ D.fault_count disk.old) }
    ensures faultless { OnOk result (D.fault_count disk.new ≡ D.fault_count disk.old) }
{
    disk.sync()?;
    let len = disk.len()?;
    let mut image = vec![in alloc; 0; len as usize]?;
    let count = disk.read(0, &mut image)?;
    image.truncate(count);
    Ok(image)
}

// The journal on an image that something was written to, and what it stands for.
fn read(alloc: Global, image: &[u8], text: &[u8]) -> Result<(Journal, Opened), Refusal>
    requires begun { (slice_index image.now 0 ≡ 1) × (2 ≤ length image.now) }
    requires bound { length image.now < 2 ^ 63 }
    ensures ok { IfOk result (λ opened. Opens text.now image.now opened.0 opened.1) }
    ensures err { IfErr result (RefusesReading text.now image.now) }
{
    let first = read_header(image, text)?;
    let last = skip_records(image, first)?;
    if image[last] == 1 {
        return read_rooted(alloc, image, last, text);
    }
    read_plain(alloc, image, first, text)
}

// The same, where whole records stand behind the header and then a gate that is closed.
fn read_plain(
    alloc: Global,
    image: &[u8],
    first: usize,
    text: &[u8],
) -> Result<(Journal, Opened), Refusal>
    requires skips { IsPlainFrom text.now image.now first }
    requires bound { length image.now < 2 ^ 63 }
    ensures ok { IfOk result (λ opened. Opens text.now image.now opened.0 opened.1) }
    ensures err { IfErr result (RefusesReading text.now image.now) }
{
    let (records, gate) = read_records(alloc, image, first)?;
    let journal = Journal::plain(gate as u64, records.len() as u64);
    let opened = Opened {
        first: 0,
        area: None,
        records,
    };
    Ok((journal, opened))
}

// The same, where a root stands at this gate.
fn read_rooted(
    alloc: Global,
    image: &[u8],
    gate: usize,
    text: &[u8],
) -> Result<(Journal, Opened), Refusal>
    requires root { IsRootedFrom text.now image.now gate }
    requires bound { length image.now < 2 ^ 63 }
    ensures ok { IfOk result (λ opened. Opens text.now image.now opened.0 opened.1) }
    ensures err { IfErr result (RefusesReading text.now image.now) }
{
    let root = read_root(image, gate);
    let head = read_head(alloc, image, &root)?;
    let (records, last) = read_records(alloc, image, head.end)?;
    let count = records.len() as u64;
    if head.first >= MAX_RECORDS - count {
        return Err(Refusal::Damaged(root.gate));
    }
    let journal = Journal::rooted(root, last as u64, head.first, count);
    let opened = Opened {
        first: head.first,
        area: Some(head.area),
        records,
    };
    Ok((journal, opened))
}
