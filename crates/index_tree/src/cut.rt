//! Where a search or an insert comes to stand between the items.
ghost use Rattle.std.specs.Prelude.{◌≡◌, Bool};

/// Parts the items of a tree: those before it, and those behind it.
pub trait Cut<T> {
    ghost before: { Self → T → Bool };

    fn is_before(&self, item: &T) -> bool
        ensures { result ≡ before self.now item.now };
}
