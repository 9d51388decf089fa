// Numbers in groups, one group for each key.
#![tactic(auto)]

ghost use Rattle.std.specs.Prelude.{ℕ, ◌+◌, ◌≤◌, length};
ghost use Rattle.groups.specs.Numbers.{start_of};

mod error;
mod methods;

pub use error::FillError;

/// Numbers in groups: to each key the numbers that have it, in rising order.
// The two vectors are not parallel: one has an entry for each key, the other one for each number. A vector of vectors would take memory whenever a group grows, and loading takes none.
#[derive(Drop)]
pub struct Groups {
    // where in `members` the group of each key starts; it ends where the next one starts
    starts: Vec<u16>,
    members: Vec<u16>,
    ghost rise: { ((k : ℕ) → start_of starts.items members.items k ≤ start_of starts.items members.items (k + 1)) },
    ghost within: { ((k : ℕ) → start_of starts.items members.items k ≤ length members.items) },
}
