//! A journal: where its last gate stands, and the appending of records.
ghost use Rattle.std.specs.Prelude.{◌≡◌, ◌+◌, ◌-◌, ◌^◌, ◌<◌, List, ℕ, Some, None, false, is_some, IsSome, length, OnOk, OnErr};
ghost use Rattle.hs_disk.specs.Cause.{HasCause};
ghost use Rattle.hs_disk.specs.Disk.{calls_after};
ghost use Rattle.redo_journal.specs.Image.{Contents, added, area_alone};
ghost use Rattle.redo_journal.specs.Root.{IsRoot, new_root, rotated_root};
ghost use Rattle.redo_journal.specs.declared.root.Root.{Root as RootView};
ghost use Rattle.redo_journal.specs.Segment.{IsSegment, IsAnySegment};

use crate::doubt::Doubt;
use crate::refusal::DiskFault;
use crate::root::Root;
use crate::segment::{last_gate, number_of};
use crate::writes::{select, set_byte, write_both, write_record, write_segment};
use hs_disk::Disk;
use std::marker::Model;

const OPEN: u8 = 1;

const CLOSED: u8 = 0;

/// A journal on a disk that is handed in with each call.
#[derive(Debug, Drop)]
pub struct Journal {
    gate: u64,
    first: u64,
    since: u64,
    root: Option<Root>,
    doubt: Option<Doubt>,
}

impl Model for Journal {
    ghost use Rattle.redo_journal.specs.Journal.{Standing};

    ghost Value = { Standing };

    ghost use Rattle.redo_journal.specs.Inside.{standing, IsPlace};

    ghost view = { standing };

    ghost invariant = { IsPlace };
}

impl Journal {
    ghost use Rattle.redo_journal.specs.Inside.{IsBefore};
    ghost use Rattle.redo_journal.specs.Journal.{StandsOn, IsJournalOn, Turned, records, root_gate, is_due, append_calls, rotate_calls, repair_calls};
    ghost use Rattle.redo_journal.specs.Committing.{Commits, Repairs};

    // A journal without a root, whose last gate, at this place, is closed.
    pub(crate) fn plain(gate: u64, records: u64) -> Journal
        requires { gate < 2 ^ 63 }
        ensures { result
            ≡ record { gate = gate; first = 0; since = records; root = None; doubt = None } }
    {
        Journal {
            gate,
            first: 0,
            since: records,
            root: None,
            doubt: None,
        }
    }

    // A journal with a root, whose last gate, at this place, is closed.
    pub(crate) fn rooted(root: Root, gate: u64, first: u64, since: u64) -> Journal
        requires place { gate < 2 ^ 63 }
        requires before { IsBefore (Some root) gate }
        requires counts { first + since < 2 ^ 64 }
        ensures { result
            ≡ record { gate = gate; first = first; since = since; root = Some root; doubt = None } }
    {
        Journal {
            gate,
            first,
            since,
            root: Some(root),
            doubt: None,
        }
    }

    /// How many whole records the journal has, those before its area too.
    pub fn records(&self) -> u64
        ensures { result ≡ records self.now }
    {
        self.first + self.since
    }

    /// How many records stand behind the area, or in all, where there is no root.
    pub fn since_area(&self) -> u64
        ensures { result ≡ self.now.since }
    {
        self.since
    }

    /// Whether the journal has a root, so that it can be rotated.
    pub fn has_root(&self) -> bool
        ensures { result ≡ is_some self.now.root }
    {
        self.root.is_some()
    }

    /// The place of the root's gate.
    pub fn root_gate(&self) -> Option<u64>
        ensures { result ≡ root_gate self.now }
    {
        match self.root {
            Some(root) => Some(root.gate),
            None => None,
        }
    }

    /// Whether a gate or a selector is in doubt, after a failure at its write or sync, or in a
    /// repair. The next append or rotation puts it back first.
    pub fn repair_due(&self) -> bool
        ensures { result ≡ is_due self.now }
    {
        self.doubt.is_some()
    }

    /// Appends a record.
    pub fn append<D: Disk>(&mut self, disk: &mut D, payload: &[u8]) -> Result<(), DiskFault>
        requires fits { length payload.now < 2 ^ 32 }
        requires no_root { IsRoot payload.now → ⊥ }
        requires counts { records self.old < 2 ^ 64 - 1 }
        requires stands { D.tells → IsJournalOn self.old (D.seen disk.old) (D.may_leave disk.old) }

        // Whatever text and contents the journal stands for.
        ensures commits { D.tells → (text : List ℕ) (contents doubtful : Contents)
            → StandsOn text contents doubtful self.old (D.seen disk.old) (D.may_leave disk.old)
            → Commits D.seen D.may_leave D.moment D.left_at text contents doubtful
            (added contents payload.now) self.old self.new disk.old disk.new result }
        ensures stands { D.tells → IsJournalOn self.new (D.seen disk.new) (D.may_leave disk.new) }

        ensures counted { OnOk result
            ((self.new.since ≡ self.old.since + 1) × (is_due self.new ≡ false)) }
        ensures uncounted { OnErr result (self.new.since ≡ self.old.since) }
        ensures kept { (self.new.first ≡ self.old.first) × (self.new.root ≡ self.old.root) }
        ensures calls { D.tells → OnOk result
            (D.calls disk.new ≡ calls_after (append_calls self.old) (D.calls disk.old)) }
        ensures same { D.which disk.new ≡ D.which disk.old }
        ensures faultless { OnOk result (D.fault_count disk.new ≡ D.fault_count disk.old) }
        ensures cause { HasCause (D.fault_count disk.old) (D.fault_count disk.new) result }
    {
        self.repair(disk)?;
        self.add(disk, payload)
    }

    // Puts the byte back that is in doubt.
    fn repair<D: Disk>(&mut self, disk: &mut D) -> Result<(), DiskFault>
        requires { D.tells → IsJournalOn self.old (D.seen disk.old) (D.may_leave disk.old) }
        ensures repairs { D.tells → (text : List ℕ) (contents doubtful : Contents)
            → StandsOn text contents doubtful self.old (D.seen disk.old) (D.may_leave disk.old)
            → Repairs D.seen D.may_leave D.moment D.left_at text contents doubtful
            self.old self.new disk.old disk.new }
        ensures ok { OnOk result (self.new ≡ record self.old { doubt = None }) }
        ensures err { OnErr result (self.new ≡ self.old) }
        ensures calls { D.tells → OnOk result
            (D.calls disk.new ≡ calls_after (repair_calls self.old) (D.calls disk.old)) }
        ensures same { D.which disk.new ≡ D.which disk.old }
        ensures faultless { OnOk result (D.fault_count disk.new ≡ D.fault_count disk.old) }
        ensures cause { HasCause (D.fault_count disk.old) (D.fault_count disk.new) result }
    {
        if let Some(doubt) = self.doubt {
            set_byte(disk, doubt.place, doubt.byte)?;
            self.doubt = None;
        }
        Ok(())
    }

    // Appends a record, where no byte is in doubt.
    fn add<D: Disk>(&mut self, disk: &mut D, payload: &[u8]) -> Result<(), DiskFault>
        requires fits { length payload.now < 2 ^ 32 }
        requires no_root { IsRoot payload.now → ⊥ }
        requires counts { records self.old < 2 ^ 64 - 1 }
        requires quiet { self.old.doubt ≡ None }
        requires stands { D.tells → IsJournalOn self.old (D.seen disk.old) (D.may_leave disk.old) }
        ensures commits { D.tells → (text : List ℕ) (contents doubtful : Contents)
            → StandsOn text contents doubtful self.old (D.seen disk.old) (D.may_leave disk.old)
            → Commits D.seen D.may_leave D.moment D.left_at text contents doubtful
            (added contents payload.now) self.old self.new disk.old disk.new result }
        ensures counted { OnOk result
            ((self.new.since ≡ self.old.since + 1) × (is_due self.new ≡ false)) }
        ensures uncounted { OnErr result (self.new.since ≡ self.old.since) }
        ensures kept { (self.new.first ≡ self.old.first) × (self.new.root ≡ self.old.root) }
        ensures calls { D.tells → OnOk result
            (D.calls disk.new ≡ calls_after 4 (D.calls disk.old)) }
        ensures same { D.which disk.new ≡ D.which disk.old }
        ensures faultless { OnOk result (D.fault_count disk.new ≡ D.fault_count disk.old) }
        ensures cause { HasCause (D.fault_count disk.old) (D.fault_count disk.new) result }
    {
        let len = (payload.len() as u32).to_be_bytes();
        write_record(disk, self.gate + 1, &len, payload)?;
        self.doubt = Some(Doubt {
            place: self.gate,
            byte: CLOSED,
        });
        set_byte(disk, self.gate, OPEN)?;
        self.doubt = None;
        self.gate += 5 + payload.len() as u64;
        self.since += 1;
        Ok(())
    }

    /// Gives a journal without a root one, with this segment, which it then lives in.
    pub fn turn_over<D: Disk>(&mut self, disk: &mut D, segment: &[u8]) -> Result<(), DiskFault>
        requires segment { IsAnySegment segment.now }
        requires no_root { self.old.root ≡ None }
        requires quiet { self.old.doubt ≡ None }
        requires stands { D.tells → IsJournalOn self.old (D.seen disk.old) (D.may_leave disk.old) }

        // Whatever text and contents the journal stands for.
        ensures commits { D.tells
            → (text : List ℕ) (contents doubtful : Contents) (number : ℕ) (area : List ℕ)
            → StandsOn text contents doubtful self.old (D.seen disk.old) (D.may_leave disk.old)
            → IsSegment number area segment.now
            → Commits D.seen D.may_leave D.moment D.left_at text contents doubtful
            (area_alone number area) self.old self.new disk.old disk.new result }
        ensures stands { D.tells → IsJournalOn self.new (D.seen disk.new) (D.may_leave disk.new) }

        ensures turned { OnOk result (Turned (new_root self.old.gate) segment.now self.new) }
        ensures kept { OnErr result (self.new ≡ record self.old { doubt = self.new.doubt }) }
        ensures calls { D.tells → OnOk result
            (D.calls disk.new ≡ calls_after 5 (D.calls disk.old)) }
        ensures same { D.which disk.new ≡ D.which disk.old }
        ensures faultless { OnOk result (D.fault_count disk.new ≡ D.fault_count disk.old) }
        ensures cause { HasCause (D.fault_count disk.old) (D.fault_count disk.new) result }
    {
        let live = self.gate + 27;
        write_both(disk, self.gate + 1, &Root::new_bytes(live), live, segment)?;
        self.doubt = Some(Doubt {
            place: self.gate,
            byte: CLOSED,
        });
        set_byte(disk, self.gate, OPEN)?;
        let root = Root {
            gate: self.gate,
            second: false,
            live,
        };
        let gate = last_gate(live, segment);
        *self = Journal::rooted(root, gate, number_of(segment), 0);
        Ok(())
    }

    /// Puts a segment in place of the live one.
    pub fn rotate<D: Disk>(&mut self, disk: &mut D, segment: &[u8]) -> Result<(), DiskFault>
        requires segment { IsAnySegment segment.now }
        requires has_root { IsSome self.old.root }
        requires stands { D.tells → IsJournalOn self.old (D.seen disk.old) (D.may_leave disk.old) }

        // Whatever text and contents the journal stands for.
        ensures commits { D.tells
            → (text : List ℕ) (contents doubtful : Contents) (number : ℕ) (area : List ℕ)
            → StandsOn text contents doubtful self.old (D.seen disk.old) (D.may_leave disk.old)
            → IsSegment number area segment.now
            → Commits D.seen D.may_leave D.moment D.left_at text contents doubtful
            (area_alone number area) self.old self.new disk.old disk.new result }
        ensures stands { D.tells → IsJournalOn self.new (D.seen disk.new) (D.may_leave disk.new) }

        ensures turned { (root : RootView) → self.old.root ≡ Some root → OnOk result
            (Turned (rotated_root root self.old.gate (length segment.now)) segment.now self.new) }
        ensures kept { OnErr result (self.new ≡ record self.old { doubt = self.new.doubt }) }
        ensures calls { D.tells → OnOk result
            (D.calls disk.new ≡ calls_after (rotate_calls self.old) (D.calls disk.old)) }
        ensures same { D.which disk.new ≡ D.which disk.old }
        ensures faultless { OnOk result (D.fault_count disk.new ≡ D.fault_count disk.old) }
        ensures cause { HasCause (D.fault_count disk.old) (D.fault_count disk.new) result }
    {
        self.repair(disk)?;
        self.turn(disk, segment)
    }

    // The same, where no byte is in doubt.
    fn turn<D: Disk>(&mut self, disk: &mut D, segment: &[u8]) -> Result<(), DiskFault>
        requires segment { IsAnySegment segment.now }
        requires has_root { IsSome self.old.root }
        requires quiet { self.old.doubt ≡ None }
        requires stands { D.tells → IsJournalOn self.old (D.seen disk.old) (D.may_leave disk.old) }
        ensures commits { D.tells
            → (text : List ℕ) (contents doubtful : Contents) (number : ℕ) (area : List ℕ)
            → StandsOn text contents doubtful self.old (D.seen disk.old) (D.may_leave disk.old)
            → IsSegment number area segment.now
            → Commits D.seen D.may_leave D.moment D.left_at text contents doubtful
            (area_alone number area) self.old self.new disk.old disk.new result }
        ensures turned { (root : RootView) → self.old.root ≡ Some root → OnOk result
            (Turned (rotated_root root self.old.gate (length segment.now)) segment.now self.new) }
        ensures kept { OnErr result (self.new ≡ record self.old { doubt = self.new.doubt }) }
        ensures calls { D.tells → OnOk result
            (D.calls disk.new ≡ calls_after 5 (D.calls disk.old)) }
        ensures same { D.which disk.new ≡ D.which disk.old }
        ensures faultless { OnOk result (D.fault_count disk.new ≡ D.fault_count disk.old) }
        ensures cause { HasCause (D.fault_count disk.old) (D.fault_count disk.new) result }
    {
        let root = self.named_root();
        let turned = Root {
            gate: root.gate,
            second: !root.second,
            live: root.place_of(self.gate, segment.len() as u64),
        };
        write_segment(disk, &turned, segment)?;
        self.doubt = Some(root.doubt());
        select(disk, &turned)?;
        let gate = last_gate(turned.live, segment);
        *self = Journal::rooted(turned, gate, number_of(segment), 0);
        Ok(())
    }

    // The root, where there is one.
    fn named_root(&self) -> Root
        requires { IsSome self.now.root }
        ensures root { self.now.root ≡ Some result }
        ensures before { IsBefore (Some result) self.now.gate }
        ensures bound { self.now.gate < 2 ^ 63 }
    {
        match self.root {
            Some(root) => root,
            None => Root {
                gate: 0,
                second: false,
                live: 0,
            },
        }
    }
}
