//! What holds of the words of the contracts alone: examples at the items 1, 3 and 5, and of items
//! in any total order.
ghost use Rattle.std.specs.Prelude.{◌≡◌, ℕ, Bool, List, [], ◌∷◌, not};
ghost use Rattle.std.specs.Ordering.{nat_cmp};
ghost use Rattle.index_tree.specs.Parts.{IsParted, first_place, last_place};
ghost use Rattle.index_tree.specs.Ordered.{IsAscending, IsApartFrom, AreApart, IsClosedDown, HaveSameMembers, is_below, is_through, with_item, in_order};
ghost use Rattle.index_tree.specs.Examples.{odds};

/// Holds of the words alone. It does nothing.
pub fn worked_examples()
    ensures parted { IsParted (is_below nat_cmp 3) odds }
    ensures behind { first_place (λ item. not (is_below nat_cmp 3 item)) odds ≡ Some 1 }
    ensures behind_all_like_it { first_place (λ item. not (is_through nat_cmp 3 item)) odds ≡ Some 2 }
    ensures none_behind { first_place (λ item. not (is_below nat_cmp 6 item)) odds ≡ None }
    ensures before { last_place (is_through nat_cmp 4) odds ≡ Some 1 }
    ensures none_before { last_place (is_below nat_cmp 1) odds ≡ None }
    ensures in_between { with_item nat_cmp 4 odds ≡ 1 ∷ 3 ∷ 4 ∷ 5 ∷ [] }
    ensures sorted { in_order nat_cmp (5 ∷ 1 ∷ 3 ∷ []) ≡ odds }
{}

/// Items that ascend stay so, and no other list of the same items ascends. It does nothing.
pub fn ascending_items<T: Ord>()
    ensures parted { (test : T → Bool) → IsClosedDown T.cmp test →
        (xs : List T) → IsAscending T.cmp xs → IsParted test xs }
    ensures with_one_more { (x : T) (xs : List T) → IsApartFrom T.cmp x xs →
        IsAscending T.cmp xs → IsAscending T.cmp (with_item T.cmp x xs) }
    ensures sorted { (xs : List T) → AreApart T.cmp xs → IsAscending T.cmp (in_order T.cmp xs) }
    ensures one_order { (ys xs : List T) → IsAscending T.cmp ys → AreApart T.cmp xs →
        HaveSameMembers ys xs → ys ≡ in_order T.cmp xs }
{}
