// Loading: a chart file becomes a chart, or is refused.
#![tactic(auto)]

pub mod charts;
pub mod laws;
pub mod refusals;
