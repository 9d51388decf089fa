// How deep a state stands.
ghost use Rattle.std.specs.Prelude.{◌≡◌, if◌then◌else◌, Some, None, nat_eq};
ghost use Rattle.validity.specs.Tables.{graph_of, owner_of, depth_of};
ghost use Rattle.tables.specs.Views.{fields_of};

use std::iter::successors;
use tables::tables::Tables;

/// The depth of a state; the root's is 1. Where owners name what stands in front, a state stands behind those around it; else no more levels are counted than there are states.
pub fn depth(tables: &Tables, state: usize) -> usize
    ensures { result ≡ depth_of (fields_of tables.now) state }
{
    successors(Some(state), |inner| state_around(tables, *inner))
        .take(tables.state_count() + 1)
        .count()
}

// The state that owns the graph in which the state stands. The root stands in none.
fn state_around(tables: &Tables, state: usize) -> Option<usize>
    ensures { result ≡ (if nat_eq state 0 then None else Some (owner_of (fields_of tables.now) (graph_of (fields_of tables.now) state))) }
{
    (state != 0).then(|| usize::from(tables.owner_of(usize::from(tables.graph_of(state)))))
}
