// What the tables tell of a number. Of one that nothing has they tell what a row of zeros would.
ghost use Rattle.std.specs.Prelude.{◌≡◌, ℕ, suc, ◌<◌, length, slice_index_or};
ghost use Rattle.validity.specs.Tables.{signals as signals_in, is_input_signal, states as states_in, state_kind_of, graph_of, graphs as graphs_in, owner_of, is_in, transitions as transitions_in, source_of, target_of, transition_kind_of, is_immediate, suspensions as suspensions_in, suspension_index, suspended_by};
ghost use Rattle.tables.specs.Rows.{trigger_span_at, signal_row, state_row, graph_row, transition_row, suspension_row, no_signal, no_state, no_graph, no_transition, no_suspension};
ghost use Rattle.tables.specs.Views.{fields_of};

use crate::file::ChartFile;
use crate::rows::{Graph, Signal, Span, State, Suspension, Transition};
use crate::tables::Tables;
use chart::kinds::{SignalKind, StateKind, TransitionKind};

impl Tables {
    /// The file that the tables are of.
    pub fn file(&self) -> &ChartFile
        ensures { result.now ≡ self.now.file }
    {
        &self.file
    }

    // One accessor for each kind of row: one call each, and a generic one would make the trait of rows public.
    pub fn signals(&self) -> &[Signal]
        ensures counted { length result.now ≡ signals_in (fields_of self.now) }
        ensures told { (n : ℕ) → n < length result.now → slice_index_or result.now n no_signal ≡ signal_row (fields_of self.now) n }
    {
        self.signals.as_slice()
    }

    pub fn states(&self) -> &[State]
        ensures counted { length result.now ≡ states_in (fields_of self.now) }
        ensures told { (n : ℕ) → n < length result.now → slice_index_or result.now n no_state ≡ state_row (fields_of self.now) n }
    {
        self.states.as_slice()
    }

    pub fn graphs(&self) -> &[Graph]
        ensures counted { length result.now ≡ graphs_in (fields_of self.now) }
        ensures told { (n : ℕ) → n < length result.now → slice_index_or result.now n no_graph ≡ graph_row (fields_of self.now) n }
    {
        self.graphs.as_slice()
    }

    pub fn transitions(&self) -> &[Transition]
        ensures counted { length result.now ≡ transitions_in (fields_of self.now) }
        ensures told { (n : ℕ) → n < length result.now → slice_index_or result.now n no_transition ≡ transition_row (fields_of self.now) n }
    {
        self.transitions.as_slice()
    }

    pub fn suspensions(&self) -> &[Suspension]
        ensures counted { length result.now ≡ suspensions_in (fields_of self.now) }
        ensures told { (n : ℕ) → n < length result.now → slice_index_or result.now n no_suspension ≡ suspension_row (fields_of self.now) n }
    {
        self.suspensions.as_slice()
    }

    pub fn signal_count(&self) -> usize
        ensures { result ≡ signals_in (fields_of self.now) }
    {
        self.signals.len()
    }

    pub fn state_count(&self) -> usize
        ensures { result ≡ states_in (fields_of self.now) }
    {
        self.states.len()
    }

    pub fn graph_count(&self) -> usize
        ensures { result ≡ graphs_in (fields_of self.now) }
    {
        self.graphs.len()
    }

    pub fn transition_count(&self) -> usize
        ensures { result ≡ transitions_in (fields_of self.now) }
    {
        self.transitions.len()
    }

    pub fn suspension_count(&self) -> usize
        ensures { result ≡ suspensions_in (fields_of self.now) }
    {
        self.suspensions.len()
    }

    pub fn is_input(&self, signal: usize) -> bool
        ensures { result ≡ is_input_signal (fields_of self.now) signal }
    {
        matches!(self.signal(signal).kind, SignalKind::Input)
    }

    pub fn kind_of(&self, state: usize) -> StateKind
        ensures { result ≡ state_kind_of (fields_of self.now) state }
    {
        self.state(state).kind
    }

    pub fn graph_of(&self, state: usize) -> u16
        ensures { result ≡ graph_of (fields_of self.now) state }
    {
        self.state(state).graph
    }

    pub fn owner_of(&self, graph: usize) -> u16
        ensures { result ≡ owner_of (fields_of self.now) graph }
    {
        self.graph(graph).owner
    }

    pub fn source_of(&self, transition: usize) -> u16
        ensures { result ≡ source_of (fields_of self.now) transition }
    {
        self.transition(transition).source
    }

    pub fn target_of(&self, transition: usize) -> u16
        ensures { result ≡ target_of (fields_of self.now) transition }
    {
        self.transition(transition).target
    }

    pub fn transition_kind_of(&self, transition: usize) -> TransitionKind
        ensures { result ≡ transition_kind_of (fields_of self.now) transition }
    {
        self.transition(transition).kind
    }

    pub fn is_immediate(&self, transition: usize) -> bool
        ensures { result ≡ is_immediate (fields_of self.now) transition }
    {
        self.transition(transition).immediate
    }

    /// The state that the suspension with this number suspends.
    pub fn suspended_by(&self, suspension: usize) -> u16
        ensures { result ≡ suspended_by (fields_of self.now) suspension }
    {
        self.suspension(suspension).state
    }

    /// Where the trigger of the suspension with this number stands.
    pub fn suspension_trigger(&self, suspension: usize) -> Option<Span>
        ensures { result ≡ trigger_span_at (fields_of self.now) (suc (suspension_index (fields_of self.now) suspension)) }
    {
        self.suspension(suspension).trigger
    }

    /// Whether the state stands in the graph. The root stands in none.
    pub fn is_in(&self, graph: usize, state: usize) -> bool
        ensures { result ≡ is_in (fields_of self.now) graph state }
    {
        state != 0 && usize::from(self.graph_of(state)) == graph
    }
}
