//! Scripts through `hs_replay`'s `top`: what is answered and printed. They stand in a crate of their own, so that the
//! crate that they try is proved once and not once more beside them.
#![tactic(auto)]

#[cfg(test)]
mod tests;
