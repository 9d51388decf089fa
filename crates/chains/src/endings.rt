// Graphs and macrostates that may end on entry, by what chain transitions lead to.
ghost use Rattle.std.specs.Prelude.{◌≡◌, ℕ, ◌<◌, false, slice_index_or};
ghost use Rattle.closure.specs.Rows.{told};
ghost use Rattle.validity.specs.Tables.{graphs as graphs_in, initial_of, graph_may_end, may_end, is_chain_by};
ghost use Rattle.tables.specs.Views.{fields_of};
ghost use Rattle.chains.specs.Ends.{lets_end};

use chart::kinds::{StateKind, TransitionKind};
use closure::Reach;
use std::array;
use tables::tables::Tables;

// A chart with what chain transitions lead to, and which graphs may end on entry by that.
#[derive(Drop)]
pub(crate) struct Endings<'a> {
    tables: &'a Tables,
    // What the chain transitions lead to; only the invariant speaks of it.
    reach: &'a Reach,
    // By number of the graph, whether it may end. An array for every chart: loading takes no memory.
    ends: [bool; 128],
    ghost ends_told: { ((g : ℕ) → g < graphs_in (fields_of tables.now) → slice_index_or ends g false ≡ graph_may_end (fields_of tables.now) (told reach.now) g) },
}

impl<'a> Endings<'a> {
    pub(crate) fn of(tables: &'a Tables, reach: &'a Reach) -> Endings<'a>
        ensures { (result.tables.now ≡ tables.now) × (result.reach.now ≡ reach.now) }
    {
        let graphs = tables.graph_count();
        let ends = array::from_fn(|graph| graph < graphs && graph_may_end(tables, reach, graph));
        Endings {
            tables,
            reach,
            ends,
        }
    }

    // An immediate transition, or a normal one whose source may end on entry.
    pub(crate) fn is_chain(&self, transition: usize) -> bool
        ensures { result ≡ is_chain_by (fields_of self.now.tables.now) (told self.now.reach.now) transition }
    {
        let kind = self.tables.transition_kind_of(transition);
        self.tables.is_immediate(transition)
            || matches!(kind, TransitionKind::Normal)
                && self.may_end(usize::from(self.tables.source_of(transition)))
    }

    // Each graph of the macrostate may end.
    fn may_end(&self, state: usize) -> bool
        ensures { result ≡ may_end (fields_of self.now.tables.now) (told self.now.reach.now) state }
    {
        matches!(self.tables.kind_of(state), StateKind::Macro)
            && (0..self.tables.graph_count()).all(|graph| self.lets_end(state, graph))
    }

    // The graph is another state's, or may end.
    fn lets_end(&self, state: usize, graph: usize) -> bool
        requires { graph < graphs_in (fields_of self.now.tables.now) }
        ensures { result ≡ lets_end (fields_of self.now.tables.now) (graph_may_end (fields_of self.now.tables.now) (told self.now.reach.now)) state graph }
    {
        usize::from(self.tables.owner_of(graph)) != state || self.ends[graph]
    }
}

// In the graph a final state is the initial one or is reached from it.
fn graph_may_end(tables: &Tables, reach: &Reach, graph: usize) -> bool
    ensures { result ≡ graph_may_end (fields_of tables.now) (told reach.now) graph }
{
    let initial = initial_state(tables, graph);
    (0..tables.state_count()).any(|state| {
        tables.is_in(graph, state)
            && matches!(tables.kind_of(state), StateKind::Final)
            && (initial == state || reach.leads(initial, state))
    })
}

/// The first state of the graph; of a graph without states, the last state of all.
pub fn initial_state(tables: &Tables, graph: usize) -> usize
    ensures { result ≡ initial_of (fields_of tables.now) graph }
{
    let states = tables.state_count();
    (0..states)
        .find(|state| tables.is_in(graph, *state))
        .unwrap_or(states.saturating_sub(1))
}
