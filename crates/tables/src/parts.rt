// The kinds of rows that the tables are made of, each made of the fields of its kind.
ghost use Rattle.std.specs.Prelude.{◌≡◌, ℕ, ◌≤◌, true, Bool, List, length, if◌then◌else◌, Some, None};
ghost use Rattle.chart.specs.declared.kinds.Tag.TheVariants.{Signal as of_signal, State as of_state, Graph as of_graph, Transition as of_transition, Suspension as of_suspension};
ghost use Rattle.chart.specs.Fields.{Field as AnyField, is, encode_all};
ghost use Rattle.chart.specs.Files.{is_row};
ghost use Rattle.chart.specs.Limits.{count};
ghost use Rattle.validity.specs.Parts.{at as field_at};
ghost use Rattle.tables.specs.Rows.{signal_at, state_at, graph_at, transition_at, suspension_at, no_signal, no_state, no_graph, no_transition, no_suspension};
ghost use Rattle.tables.specs.Copied.{fields_in};
ghost use Rattle.tables.specs.Most.{few_signals, few_states, few_graphs, few_transitions, few_suspensions};

use crate::indexed::Indexed;
use crate::rows::{Graph, Signal, Span, State, Suspension, Transition};
use chart::fields::Field;
use chart::kinds::{SignalKind, StateKind, Tag, TransitionKind};

/// A kind of row.
pub(crate) trait Part: Copy {
    /// The fields that make such a row.
    ghost makes: { AnyField → Bool };
    /// The row of the field with this index.
    ghost row: { List AnyField → ℕ → Self };

    ghost ZEROS: { Self };

    ghost MOST: { ℕ };

    /// The row that stands for nothing.
    // A row and no `Option`: the accessors of `Tables` can't fail, and the definitions see the same zeros.
    const ZEROS: Self;

    /// How many such rows a file makes at most.
    const MOST: usize;

    /// The row of the field, if it makes one.
    fn of(field: &Indexed<'_>) -> Option<Self>
        ensures { result ≡ (if makes (field_at (fields_in field.now.file.now) field.now.index) then Some (row (fields_in field.now.file.now) field.now.index) else None) };

    /// What is promised of `MOST`: of the fields of a file no more make such rows.
    ghost few: { (fs : List AnyField) → is_row fs ≡ true → length (encode_all fs) ≤ 16384 → count makes fs ≤ MOST };
}

const NO_SPAN: Span = Span {
    start: 0,
    length: 0,
};

impl Part for Signal {
    ghost makes = { is of_signal };

    ghost row = { signal_at };

    ghost ZEROS = { no_signal };

    ghost MOST = { 128 };

    const ZEROS: Signal = Signal {
        kind: SignalKind::Internal,
        name: NO_SPAN,
    };

    const MOST: usize = 128;

    fn of(field: &Indexed<'_>) -> Option<Signal> {
        let Field::Signal { kind, .. } = field.field else {
            return None;
        };
        Some(Signal {
            kind,
            name: field.span(4),
        })
    }

    ghost few = { few_signals };
}

impl Part for State {
    ghost makes = { is of_state };

    ghost row = { state_at };

    ghost ZEROS = { no_state };

    ghost MOST = { 256 };

    const ZEROS: State = State {
        kind: StateKind::Simple,
        graph: 0,
        name: NO_SPAN,
        effects: None,
    };

    const MOST: usize = 256;

    fn of(field: &Indexed<'_>) -> Option<State> {
        let Field::State { graph, kind, .. } = field.field else {
            return None;
        };
        Some(State {
            kind,
            graph,
            name: field.span(6),
            effects: field.behind(1, Tag::Effects),
        })
    }

    ghost few = { few_states };
}

impl Part for Graph {
    ghost makes = { is of_graph };

    ghost row = { graph_at };

    ghost ZEROS = { no_graph };

    ghost MOST = { 128 };

    const ZEROS: Graph = Graph { owner: 0 };

    const MOST: usize = 128;

    fn of(field: &Indexed<'_>) -> Option<Graph> {
        let Field::Graph { owner } = field.field else {
            return None;
        };
        Some(Graph { owner })
    }

    ghost few = { few_graphs };
}

impl Part for Transition {
    ghost makes = { is of_transition };

    ghost row = { transition_at };

    ghost ZEROS = { no_transition };

    ghost MOST = { 512 };

    const ZEROS: Transition = Transition {
        source: 0,
        target: 0,
        kind: TransitionKind::Strong,
        immediate: false,
        trigger: None,
        effects: None,
    };

    const MOST: usize = 512;

    fn of(field: &Indexed<'_>) -> Option<Transition> {
        let Field::Transition {
            source,
            target,
            kind,
            immediate,
        } = field.field
        else {
            return None;
        };
        Some(Transition {
            source,
            target,
            kind,
            immediate,
            trigger: field.behind(1, Tag::Trigger),
            effects: effects_behind(field),
        })
    }

    ghost few = { few_transitions };
}

impl Part for Suspension {
    ghost makes = { is of_suspension };

    ghost row = { suspension_at };

    ghost ZEROS = { no_suspension };

    ghost MOST = { 3276 };

    const ZEROS: Suspension = Suspension {
        state: 0,
        trigger: None,
    };

    // A suspension has five bytes.
    const MOST: usize = 3_276;

    fn of(field: &Indexed<'_>) -> Option<Suspension> {
        let Field::Suspension { state } = field.field else {
            return None;
        };
        Some(Suspension {
            state,
            trigger: field.behind(1, Tag::Trigger),
        })
    }

    ghost few = { few_suspensions };
}

// The effects of a transition: behind its trigger, or directly behind it.
fn effects_behind(field: &Indexed<'_>) -> Option<Span>
    ensures { result ≡ (transition_at (fields_in field.now.file.now) field.now.index).effects }
{
    if field.behind(1, Tag::Trigger).is_some() {
        field.behind(2, Tag::Effects)
    } else {
        field.behind(1, Tag::Effects)
    }
}
