//! Laws of images, and worked examples of their bytes.
ghost use Rattle.std.specs.Prelude.{◌≡◌, ◌≤◌, ℕ, List, [], ◌∷◌, ◌++◌, length};
ghost use Rattle.redo_journal.specs.Bytes.{IsCutShort, front, records_of};
ghost use Rattle.redo_journal.specs.Damage.{HasOtherText, IsDamagedAt};
ghost use Rattle.redo_journal.specs.Image.{Contents, Journals, IsFresh, area_alone, nothing};
ghost use Rattle.redo_journal.specs.Opening.{IsRefusedAt};
ghost use Rattle.redo_journal.specs.Segment.{IsSegment};

/// The bytes of a journal without records for the empty schema text, of a record with the payload
/// 7, 8, and of the same journal with a root and an area of four bytes 0.
pub fn worked_examples()
    ensures new_journal { Journals [] nothing
        (1 ∷ 72 ∷ 83 ∷ 74 ∷ 82 ∷ 78 ∷ 76 ∷ 48 ∷ 49 ∷ 0 ∷ 0 ∷ 0 ∷ 0 ∷ 0 ∷ []) }
    ensures one_record { records_of ((7 ∷ 8 ∷ []) ∷ []) ≡ 1 ∷ 0 ∷ 0 ∷ 0 ∷ 2 ∷ 7 ∷ 8 ∷ [] }
    ensures segment { IsSegment 0 (0 ∷ 0 ∷ 0 ∷ 0 ∷ [])
        (0 ∷ 0 ∷ 0 ∷ 0 ∷ 0 ∷ 0 ∷ 0 ∷ 0 ∷ 0 ∷ 0 ∷ 0 ∷ 4 ∷ 0 ∷ 0 ∷ 0 ∷ 0 ∷ 0 ∷ []) }
    ensures with_a_root { Journals [] (area_alone 0 (0 ∷ 0 ∷ 0 ∷ 0 ∷ []))
        (1 ∷ 72 ∷ 83 ∷ 74 ∷ 82 ∷ 78 ∷ 76 ∷ 48 ∷ 49 ∷ 0 ∷ 0 ∷ 0 ∷ 0 ∷ 1 ∷ 0 ∷ 0 ∷ 0 ∷ 21 ∷
        255 ∷ 255 ∷ 255 ∷ 255 ∷ 0 ∷ 0 ∷ 0 ∷ 0 ∷ 0 ∷ 0 ∷ 0 ∷ 0 ∷ 40 ∷ 0 ∷ 0 ∷ 0 ∷ 0 ∷ 0 ∷ 0 ∷ 0 ∷ 40 ∷
        0 ∷ 0 ∷ 0 ∷ 0 ∷ 0 ∷ 0 ∷ 0 ∷ 0 ∷ 0 ∷ 0 ∷ 0 ∷ 0 ∷ 4 ∷ 0 ∷ 0 ∷ 0 ∷ 0 ∷ 0 ∷ []) }

    // A record wants the gate that follows it.
    ensures no_gate_behind { IsCutShort (0 ∷ 0 ∷ 0 ∷ 2 ∷ 7 ∷ 8 ∷ []) }
    ensures gate_behind { IsCutShort (0 ∷ 0 ∷ 0 ∷ 2 ∷ 7 ∷ 8 ∷ 9 ∷ []) → ⊥ }

    ensures closed_header { IsFresh (0 ∷ 72 ∷ []) }
    ensures open_header { IsFresh (1 ∷ 72 ∷ []) → ⊥ }
{}

/// An image is fresh, or a journal's with one contents, or another schema's, or refused at one
/// gate. So the answers of `open_on` exclude one another, but for a journal that is whole and whose
/// records have too high a number.
pub fn an_image_reads_one_way()
    ensures one_contents { (text image : List ℕ) (contents others : Contents)
        → Journals text contents image → Journals text others image → contents ≡ others }
    ensures one_place { (text image : List ℕ) (place other : ℕ)
        → IsRefusedAt text place image → IsRefusedAt text other image → place ≡ other }

    // No two of the four hold of one image.
    ensures not_other { (text image : List ℕ) (contents : Contents)
        → Journals text contents image → HasOtherText text image → ⊥ }
    ensures not_damaged { (text image : List ℕ) (contents : Contents) (place : ℕ)
        → Journals text contents image → IsDamagedAt text place image → ⊥ }
    ensures other_not_refused { (text image : List ℕ) (place : ℕ)
        → HasOtherText text image → IsRefusedAt text place image → ⊥ }
    ensures fresh_no_journal { (text image : List ℕ) (contents : Contents)
        → IsFresh image → Journals text contents image → ⊥ }
    ensures fresh_no_other { (text image : List ℕ) → IsFresh image → HasOtherText text image → ⊥ }
    ensures fresh_not_refused { (text image : List ℕ) (place : ℕ)
        → IsFresh image → IsRefusedAt text place image → ⊥ }
{}

/// What follows a journal's last gate is free. So an image that goes on, as that of a file which
/// grew ahead by zeros, stands for the same, unless it was of no byte or one.
pub fn what_follows_is_free()
    ensures journals { (text image more : List ℕ) (contents : Contents)
        → Journals text contents image → Journals text contents (image ++ more) }
    ensures fresh { (image more : List ℕ)
        → 2 ≤ length image → IsFresh image → IsFresh (image ++ more) }

    // A first byte 1 alone is fresh, and with anything behind it is damaged.
    ensures one_byte { (text : List ℕ) → IsFresh (1 ∷ []) × IsDamagedAt text 0 (1 ∷ 0 ∷ []) }
{}
