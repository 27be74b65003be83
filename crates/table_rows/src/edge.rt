//! Where a walk begins or ends.

/// An end of a range of keys. As the low end of a range, `With(k)` lets in `k` and all after it and
/// `Without(k)` what stands after `k`; as the high end, what stands up to `k` or before it. `Open`
/// lets in every key.
#[derive(Debug, Drop)]
pub enum Edge<K> {
    Open,
    With(K),
    Without(K),
}
