// The fields of a chart file in tables: signals, states, graphs, transitions and suspensions by number.
#![tactic(auto)]

mod column;
pub mod file;
mod indexed;
mod parts;
pub mod rows;
pub mod tables;
