// What a chart file must satisfy beyond its format to be loaded, and what a loaded chart is.
#![tactic(auto)]

pub mod faults;
pub mod laws;
