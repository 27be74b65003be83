//! Worked examples of what a write and a cut leave.
ghost use Rattle.std.specs.Prelude.{◌≡◌, ℕ, List, [], ◌∷◌};
ghost use Rattle.hs_disk.specs.Disk.{written, Torn, Cut};
ghost use Rattle.hs_disk.specs.Images.{IsImage};
ghost use Rattle.hs_disk.specs.declared.change.Change.TheVariants.{Wrote, CutTo, Synced};

/// Two bytes 8 and 9 go to place 1 of the disk 1, 2.
pub fn worked_examples()
    ensures past_the_end { written 1 (8 ∷ 9 ∷ []) (1 ∷ 2 ∷ []) ≡ 1 ∷ 8 ∷ 9 ∷ [] }
    ensures torn_anyhow { Torn 1 2 (1 ∷ 2 ∷ []) (1 ∷ 7 ∷ 7 ∷ []) }
    ensures torn_short { Torn 1 2 (1 ∷ 2 ∷ []) (1 ∷ 8 ∷ []) }
    ensures never_shorter { Torn 1 2 (1 ∷ 2 ∷ []) (1 ∷ []) → ⊥ }
    ensures never_before { Torn 1 2 (1 ∷ 2 ∷ []) (7 ∷ 8 ∷ 9 ∷ []) → ⊥ }

    // A cut that is not synced may be undone, and one that is synced may not.
    ensures cut_undone { IsImage (1 ∷ 2 ∷ []) (CutTo 1 ∷ []) (1 ∷ 2 ∷ []) }
    ensures cut_synced { (image : List ℕ)
        → IsImage (1 ∷ 2 ∷ []) (CutTo 1 ∷ Synced ∷ []) image → image ≡ 1 ∷ [] }
    ensures write_synced { (image : List ℕ)
        → IsImage [] (Wrote 0 (5 ∷ []) ∷ Synced ∷ []) image → image ≡ 5 ∷ [] }
{}
