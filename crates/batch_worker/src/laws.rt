//! What turns keep to, by their definition.
ghost use Rattle.std.specs.Prelude.{◌≡◌, ◌⊎◌, ◌∷◌, ℕ, true, List, Some, IsSome};
ghost use Rattle.std.specs.List.{concat};
ghost use Rattle.fault_count.specs.Cause.{Rose};
ghost use Rattle.line_pipeline.specs.declared.conns.Conn.TheVariants as conns;
ghost use Rattle.line_pipeline.specs.declared.reasons.Reason.TheVariants as reasons;
ghost use Rattle.line_pipeline.specs.declared.outcomes.Outcome.TheVariants as outcomes;
ghost use Rattle.line_pipeline.specs.Conn.{unsent_of};
ghost use Rattle.line_pipeline.specs.Settled.{asked_by, CanSettle};
ghost use Rattle.line_pipeline.specs.Table.{conn_at, is_held};
ghost use Rattle.request_types.specs.declared.batches.Batch.{Batch};
ghost use Rattle.request_types.specs.declared.batches.Replies.{Replies};
ghost use Rattle.request_types.specs.declared.connections.ConnId.{ConnId};
ghost use Rattle.request_types.specs.Ids.{is_listed};
ghost use Rattle.batch_worker.specs.Linked.{LinkTable, Linked, linked_at, Went, Each};
ghost use Rattle.batch_worker.specs.Turn.{Gathers, settled_by};
ghost use Rattle.batch_worker.specs.Receiving.{Receives};
ghost use Rattle.batch_worker.specs.Sending.{Passes};
ghost use Rattle.batch_worker.specs.Told.{Told, Tells, received, passed};
ghost use Rattle.batch_worker.specs.Owed.{IsAnswered, AreAnswered, IsServed, IsOwed, AreSentAlike, text_for};

use hs_outside::Link;

/// Over links that tell all, before and after, a turn is a function of what they tell.
pub fn links_that_tell_fix_a_turn()
    ensures receiving { (old new : Linked) (told : Told) → Tells old told
        → IsSome new.peer.fails_next → Receives old new → Tells new (received told) }
    ensures sending { (old new : Linked) (told : Told) → Tells old told
        → IsSome new.peer.fails_next → Passes old new → Tells new (passed told) }
{}

/// Each connection that a turn lists is answered the text of its part of the replies.
pub fn a_turn_answers_each_connection<L: Link>()
    ensures { (ids : List ConnId) (old mid new : LinkTable L) (batch : Batch) (replies : Replies)
        (id : ConnId) → Gathers L.peer ids old mid batch
        → CanSettle mid.table.conns batch replies.parts
        → Each L.peer Passes ids (settled_by mid batch (outcomes.Done replies)) new
        → is_listed ids id ≡ true → is_held old.table.conns id ≡ true
        → Went (λ before after. IsAnswered before after (text_for replies.parts id))
        (linked_at L.peer old id) (linked_at L.peer new id) }
{}

/// Each connection whose lines are in a batch that failed is closed for that.
pub fn a_failed_batch_closes_who_asked<L: Link>()
    ensures disk { (ids : List ConnId) (old mid new : LinkTable L) (batch : Batch) (id : ConnId)
        → Gathers L.peer ids old mid batch
        → Each L.peer Passes ids (settled_by mid batch outcomes.DiskFault) new
        → is_listed (asked_by batch) id ≡ true
        → conn_at new.table.conns id ≡ Some (conns.Closed reasons.BatchDisk) }
    ensures memory { (ids : List ConnId) (old mid new : LinkTable L) (batch : Batch) (id : ConnId)
        → Gathers L.peer ids old mid batch
        → Each L.peer Passes ids (settled_by mid batch outcomes.NoMemory) new
        → is_listed (asked_by batch) id ≡ true
        → conn_at new.table.conns id ≡ Some (conns.Closed reasons.BatchMemory) }
{}

/// What was sent and what is queued are together what a connection was owed, as long as it is
/// served.
pub fn nothing_is_lost_and_nothing_sent_twice()
    ensures in_a_turn { (old new : Linked) (text : List ℕ) → IsAnswered old new text
        → IsServed new.conn → IsOwed old new text }
    ensures over_turns { (old new : Linked) (texts : List (List ℕ)) → AreAnswered old new texts
        → IsOwed old new (concat texts) }
{}

/// However a peer's bytes come cut: connections that are answered the same are sent the same, but
/// for what is still queued.
pub fn how_bytes_are_cut_makes_no_difference()
    ensures { (old new other_old other_new : Linked) (texts : List (List ℕ))
        → unsent_of old.conn ≡ unsent_of other_old.conn → AreAnswered old new texts
        → AreAnswered other_old other_new texts → AreSentAlike old new other_old other_new }
{}

/// A connection is closed for its link only where the link's count of faults rose.
pub fn a_link_closes_only_by_its_fault()
    ensures receiving { (old new : Linked) → Receives old new
        → new.conn ≡ conns.Closed reasons.LinkFault
        → (old.conn ≡ conns.Closed reasons.LinkFault) ⊎ Rose old.peer.faults new.peer.faults }
    ensures sending { (old new : Linked) → Passes old new
        → new.conn ≡ conns.Closed reasons.LinkFault
        → (old.conn ≡ conns.Closed reasons.LinkFault) ⊎ Rose old.peer.faults new.peer.faults }
{}
