// The rules of a valid chart, checked over a file's tables: the first rule that some field breaks, at the first such field.
#![tactic(auto)]

// Functions take the tables and the number of what they ask about. A struct for each such pair would only wrap it.

pub mod all;
pub mod depth;
mod ending;
mod ends;
mod leaving;
mod nesting;
mod references;
mod rings;
mod rule;
mod site;
mod triggers;
