// The rule on nesting: a root that is a macrostate, macrostates with graphs, graphs with states, and no more than eight levels of macrostates.
ghost use Rattle.std.specs.Prelude.{◌≡◌};
ghost use Rattle.validity.specs.Faults.{first_case, owns_none, is_empty, state_nesting, graph_nesting, nesting_fault};
ghost use Rattle.tables.specs.Views.{fields_of};

use crate::depth::depth;
use crate::rule::Rule;
use crate::site::Site;
use chart::fields::Field;
use chart::kinds::StateKind;
use tables::tables::Tables;
use validity::faults::Fault;

// A macrostate stands no deeper.
const DEEPEST: usize = 8;

fn owns_none(tables: &Tables, state: usize) -> bool
    ensures { result ≡ owns_none (fields_of tables.now) state }
{
    !(0..tables.graph_count()).any(|graph| usize::from(tables.owner_of(graph)) == state)
}

// Whether no state stands in the graph.
fn is_empty(tables: &Tables, graph: usize) -> bool
    ensures { result ≡ is_empty (fields_of tables.now) graph }
{
    !(0..tables.state_count()).any(|state| tables.is_in(graph, state))
}

fn state_fault(tables: &Tables, state: usize, kind: StateKind) -> Option<Fault>
    ensures { result ≡ first_case (state_nesting (fields_of tables.now) state kind) }
{
    match kind {
        StateKind::Macro => {
            if owns_none(tables, state) {
                Some(Fault::NoGraph)
            } else {
                (depth(tables, state) > DEEPEST).then_some(Fault::TooDeep)
            }
        }
        StateKind::Simple | StateKind::Final => (state == 0).then_some(Fault::RootNotMacro),
    }
}

fn graph_fault(tables: &Tables, graph: usize, owner: u16) -> Option<Fault>
    ensures { result ≡ first_case (graph_nesting (fields_of tables.now) graph owner) }
{
    match tables.kind_of(usize::from(owner)) {
        StateKind::Macro => is_empty(tables, graph).then_some(Fault::EmptyGraph),
        StateKind::Simple | StateKind::Final => Some(Fault::OwnerNotMacro),
    }
}

/// The rule on nesting.
#[derive(Clone, Copy)]
pub(crate) struct Nesting;

impl Rule for Nesting {
    ghost breaks = { λ _. nesting_fault };

    fn fault(&self, site: &Site<'_>) -> Option<Fault> {
        let tables = site.tables;
        if site.index == 0 && tables.state_count() == 0 {
            return Some(Fault::NoState);
        }
        match site.field {
            Field::State { kind, .. } => state_fault(tables, usize::from(site.entry.states), kind),
            Field::Graph { owner } => graph_fault(tables, usize::from(site.entry.graphs), owner),
            _ => None,
        }
    }
}
