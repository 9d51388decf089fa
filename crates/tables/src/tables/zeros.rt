// The row with a number, or one of zeros if nothing has that number.
ghost use Rattle.std.specs.Prelude.{◌≡◌, suc, ◌==◌};
ghost use Rattle.chart.specs.Kinds.{signal_kind_code};
ghost use Rattle.validity.specs.Tables.{is_input_signal, state_kind_of, graph_of, sustained_by, owner_of, source_of, target_of, transition_kind_of, is_immediate, trigger_of, emitted_by, suspension_index, suspended_by};
ghost use Rattle.tables.specs.Rows.{trigger_span_at, signal_name_of, state_name_of};
ghost use Rattle.tables.specs.Spans.{spanned, spanned_if, spanned_or};
ghost use Rattle.tables.specs.Views.{fields_of};

use crate::rows::{Graph, Signal, State, Suspension, Transition};
use crate::tables::Tables;

// Zeros and no `Option`: the definitions see zeros too, so no rule has to be proved only of numbers that name something.
impl Tables {
    // The signal with this number.
    pub(crate) fn signal(&self, signal: usize) -> Signal
        ensures kind { (signal_kind_code result.kind == 0) ≡ is_input_signal (fields_of self.now) signal }
        ensures name { spanned self.now.file.bytes.items result.name ≡ signal_name_of (fields_of self.now) signal }
    {
        self.signals.row(signal)
    }

    // The state with this number.
    pub(crate) fn state(&self, state: usize) -> State
        ensures kind { result.kind ≡ state_kind_of (fields_of self.now) state }
        ensures graph { result.graph ≡ graph_of (fields_of self.now) state }
        ensures name { spanned self.now.file.bytes.items result.name ≡ state_name_of (fields_of self.now) state }
        ensures effects { spanned_or self.now.file.bytes.items result.effects ≡ sustained_by (fields_of self.now) state }
    {
        self.states.row(state)
    }

    // The graph with this number.
    pub(crate) fn graph(&self, graph: usize) -> Graph
        ensures owner { result.owner ≡ owner_of (fields_of self.now) graph }
    {
        self.graphs.row(graph)
    }

    // The transition with this number.
    pub(crate) fn transition(&self, transition: usize) -> Transition
        ensures source { result.source ≡ source_of (fields_of self.now) transition }
        ensures target { result.target ≡ target_of (fields_of self.now) transition }
        ensures kind { result.kind ≡ transition_kind_of (fields_of self.now) transition }
        ensures immediate { result.immediate ≡ is_immediate (fields_of self.now) transition }
        ensures trigger { spanned_if self.now.file.bytes.items result.trigger ≡ trigger_of (fields_of self.now) transition }
        ensures effects { spanned_or self.now.file.bytes.items result.effects ≡ emitted_by (fields_of self.now) transition }
    {
        self.transitions.row(transition)
    }

    // The suspension with this number.
    pub(crate) fn suspension(&self, suspension: usize) -> Suspension
        ensures state { result.state ≡ suspended_by (fields_of self.now) suspension }
        ensures trigger { result.trigger ≡ trigger_span_at (fields_of self.now) (suc (suspension_index (fields_of self.now) suspension)) }
    {
        self.suspensions.row(suspension)
    }
}
