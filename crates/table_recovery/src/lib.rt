//! Recovery: the tables that a disk stands for.
//!
//! `recover` opens the journal on a disk and makes its tables: those of its area, or empty ones,
//! and then what each record's payload changes, one after the other. A journal without a root gets
//! one, so that it can be rotated from then on. What an image shows, tables and a number of
//! records, is defined in `Shown`; each image that a crash may leave at any moment of the call shows
//! what it showed before.
#![tactic(auto)]

mod alike;
mod laws;
mod leading;
mod opening;
mod recovered;
mod recovering;
#[cfg(test)]
mod tests;

pub use alike::all_images_show_alike;
pub use laws::{
    a_record_leads_on, an_image_is_refused_at_one_place, an_image_shows_one_thing,
    net_changes_lead, segments_are_shown,
};
pub use recovered::Recovered;
pub use recovering::recover;
