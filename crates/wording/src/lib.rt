// The words of a listing: what both listings show in the same way.
#![tactic(auto)]

pub mod effects;
pub mod indent;
pub mod names;
mod section;
pub mod sections;
mod signals;
mod suspensions;
pub mod transitions;
pub mod triggers;
