// The chart file: its fields, the reader that gives them one by one, and what the first layer of checks refuses.
#![tactic(auto)]

mod contents;
pub mod fields;
pub mod files;
pub mod kinds;
pub mod laws;
mod limits;
pub mod lookup;
mod names;
mod numbers;
mod order;
mod pieces;
pub mod postfix;
pub mod reader;
pub mod refusals;
mod words;
