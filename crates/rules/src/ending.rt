// Which states can end: macrostates with a final state in every graph.
ghost use Rattle.std.specs.Prelude.{◌≡◌};
ghost use Rattle.validity.specs.Ranges.{all_of};
ghost use Rattle.validity.specs.Tables.{graphs};
ghost use Rattle.validity.specs.Faults.{can_end};
ghost use Rattle.tables.specs.Views.{fields_of};
ghost use Rattle.rules.specs.Ending.{is_final_in, has_final, lets_end};

use chart::kinds::StateKind;
use tables::tables::Tables;

// Whether the state is a final one of the graph.
fn is_final_in(tables: &Tables, graph: usize, state: usize) -> bool
    ensures { result ≡ is_final_in (fields_of tables.now) graph state }
{
    tables.is_in(graph, state) && matches!(tables.kind_of(state), StateKind::Final)
}

// Whether a final state stands in the graph.
fn has_final(tables: &Tables, graph: usize) -> bool
    ensures { result ≡ has_final (fields_of tables.now) graph }
{
    (0..tables.state_count()).any(|state| is_final_in(tables, graph, state))
}

// Whether the graph lets the state end: another state owns it, or it has a final state.
fn lets_end(tables: &Tables, state: u16, graph: usize) -> bool
    ensures { result ≡ lets_end (fields_of tables.now) state graph }
{
    tables.owner_of(graph) != state || has_final(tables, graph)
}

// Whether every graph lets the state end.
// `chains` asks the same with another test of graphs; a function for both would take a closure and ask something of its callers.
fn all_let_end(tables: &Tables, state: u16) -> bool
    ensures { result ≡ all_of (graphs (fields_of tables.now)) (lets_end (fields_of tables.now) state) }
{
    (0..tables.graph_count()).all(|graph| lets_end(tables, state, graph))
}

/// Whether the state is a macrostate with a final state in every graph. Of a graph that another state owns no state is looked at.
pub(crate) fn can_end(tables: &Tables, state: u16) -> bool
    ensures { result ≡ can_end (fields_of tables.now) state }
{
    matches!(tables.kind_of(usize::from(state)), StateKind::Macro) && all_let_end(tables, state)
}
