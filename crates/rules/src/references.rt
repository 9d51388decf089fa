// The rule on references: each number names what it must.
ghost use Rattle.std.specs.Prelude.{◌≡◌, not, if◌then◌else◌, ◌==◌, nat_eq, nat_lt};
ghost use Rattle.chart.specs.WellFormed.{every};
ghost use Rattle.validity.specs.Faults.{first_case, unknown_state, is_signal_number, is_no_input, reference_fault};
ghost use Rattle.tables.specs.Views.{fields_of};
ghost use Rattle.rules.specs.Naming.{transition_naming, effects_naming};

use crate::rule::Rule;
use crate::site::Site;
use chart::fields::{Field, NO_GRAPH};
use tables::rows::Entry;
use tables::tables::Tables;
use validity::faults::Fault;

// Whether the graph number of a state names no graph in front of it, or that of state 0 is not 65,535.
fn is_unknown_graph(entry: Entry, graph: u16) -> bool
    ensures { result ≡ (if nat_eq entry.states 0 then not (graph == 65535) else not (nat_lt graph entry.graphs)) }
{
    if entry.states == 0 {
        graph != NO_GRAPH
    } else {
        graph >= entry.graphs
    }
}

fn is_unknown_state(tables: &Tables, state: u16) -> bool
    ensures { result ≡ unknown_state (fields_of tables.now) state }
{
    usize::from(state) >= tables.state_count()
}

fn is_signal(tables: &Tables, number: u8) -> bool
    ensures { result ≡ is_signal_number (fields_of tables.now) number }
{
    usize::from(number) < tables.signal_count()
}

// Whether each number is that of a signal.
fn are_signals(tables: &Tables, numbers: &[u8]) -> bool
    ensures { result ≡ every (is_signal_number (fields_of tables.now)) numbers.now }
{
    numbers.iter().all(|number| is_signal(tables, *number))
}

// Whether none of the signals is an input.
fn are_no_inputs(tables: &Tables, signals: &[u8]) -> bool
    ensures { result ≡ every (is_no_input (fields_of tables.now)) signals.now }
{
    signals
        .iter()
        .all(|signal| !tables.is_input(usize::from(*signal)))
}

fn transition_fault(tables: &Tables, source: u16, target: u16) -> Option<Fault>
    ensures { result ≡ first_case (transition_naming (fields_of tables.now) source target) }
{
    if is_unknown_state(tables, source) {
        Some(Fault::UnknownSource)
    } else {
        is_unknown_state(tables, target).then_some(Fault::UnknownTarget)
    }
}

fn effects_fault(tables: &Tables, signals: &[u8]) -> Option<Fault>
    ensures { result ≡ first_case (effects_naming (fields_of tables.now) signals.now) }
{
    if !are_signals(tables, signals) {
        Some(Fault::UnknownEffect)
    } else {
        (!are_no_inputs(tables, signals)).then_some(Fault::InputEffect)
    }
}

/// The rule on references.
#[derive(Clone, Copy)]
pub(crate) struct References;

impl Rule for References {
    ghost breaks = { λ _. reference_fault };

    fn fault(&self, site: &Site<'_>) -> Option<Fault> {
        let tables = site.tables;
        match site.field {
            Field::State { graph, .. } => {
                is_unknown_graph(site.entry, graph).then_some(Fault::UnknownGraph)
            }
            Field::Graph { owner } => (owner >= site.entry.states).then_some(Fault::UnknownOwner),
            Field::Transition { source, target, .. } => transition_fault(tables, source, target),
            Field::Suspension { state } => {
                is_unknown_state(tables, state).then_some(Fault::UnknownSuspended)
            }
            Field::Effects { signals } => effects_fault(tables, signals),
            Field::Signal { .. } | Field::Trigger { .. } => None,
        }
    }
}
