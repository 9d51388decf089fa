// What the tables and the chain transitions tell of each state or graph.
ghost use Rattle.std.specs.Prelude.{◌≡◌, if◌then◌else◌, nat_eq};
ghost use Rattle.closure.specs.Rows.{told};
ghost use Rattle.validity.specs.Ranges.{count_of};
ghost use Rattle.validity.specs.Tables.{states as states_in, graph_of, depth_of, initial_of};
ghost use Rattle.tables.specs.Views.{fields_of};
ghost use Rattle.derived.specs.Suspended.{suspension_span};

use chains::Chains;
use chains::endings::initial_state;
use chart::fields::NO_GRAPH;
use rules::depth::depth;
use tables::rows::Span;
use tables::tables::Tables;

/// What is derived of a state; of a number that no state has, 0 and none.
#[derive(Clone, Copy, Default)]
pub(crate) struct StateFacts {
    pub depth: u16,
    /// Where the trigger of its suspension stands.
    pub suspension: Option<Span>,
    /// From how many states chain transitions reach it.
    pub rank: u16,
}

impl StateFacts {
    pub fn of(tables: &Tables, chains: &Chains, state: usize) -> StateFacts
        ensures depth { result.depth ≡ depth_of (fields_of tables.now) state }
        ensures suspension { result.suspension ≡ suspension_span (fields_of tables.now) state }
        ensures rank { result.rank ≡ count_of (states_in (fields_of tables.now)) (λ x. told chains.now.reach x state) }
    {
        // There are at most 256 states, so nothing is lost.
        StateFacts {
            depth: depth(tables, state) as u16,
            suspension: suspension_of(tables, state),
            rank: rank(chains, tables.state_count(), state) as u16,
        }
    }
}

// These take the tables and the number of what they ask about. A struct for each such pair would only wrap it.

// Where the trigger of the first suspension of the state stands.
fn suspension_of(tables: &Tables, state: usize) -> Option<Span>
    ensures { result ≡ suspension_span (fields_of tables.now) state }
{
    (0..tables.suspension_count())
        .find(|suspension| usize::from(tables.suspended_by(*suspension)) == state)
        .and_then(|suspension| tables.suspension_trigger(suspension))
}

// From how many of the states below the count chain transitions reach the state.
fn rank(chains: &Chains, count: usize, state: usize) -> usize
    ensures { result ≡ count_of count (λ x. told chains.now.reach x state) }
{
    (0..count).filter(|from| chains.leads(*from, state)).count()
}

/// The initial state of the graph.
pub(crate) fn initial_of(tables: &Tables, graph: usize) -> u16
    ensures { result ≡ initial_of (fields_of tables.now) graph }
{
    // There are at most 256 states, so nothing is lost.
    initial_state(tables, graph) as u16
}

/// The key of the state among the members of graphs: the graph that it stands in. The root stands in none, and its key is that of none.
pub(crate) fn graph_key(tables: &Tables, state: usize) -> u16
    ensures { result ≡ (if nat_eq state 0 then 65535 else graph_of (fields_of tables.now) state) }
{
    if state == 0 {
        NO_GRAPH
    } else {
        tables.graph_of(state)
    }
}
