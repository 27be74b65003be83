//! Words and lemmas on lists of which several passes of a shared thing know beginnings, and on what passes add up to.
#![tactic(auto)]
