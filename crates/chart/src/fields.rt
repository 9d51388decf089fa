// The seven fields of a chart file, each borrowing its part of the file.
ghost use Rattle.std.specs.Prelude.{◌≡◌};
ghost use Rattle.chart.specs.Fields.{tag_of};
ghost use Rattle.chart.specs.Stated.{stated};

use crate::kinds::{SignalKind, StateKind, Tag, TransitionKind};

/// The graph number of the root, which stands in no graph.
// A number and no `Option`: any state may have any number in a file, and the rules tell a wrong one.
pub const NO_GRAPH: u16 = 65_535;

/// One field. States, graphs and signals are named by their numbers, which count each kind from 0 in file order.
#[derive(Clone, Copy)]
pub enum Field<'a> {
    Signal {
        kind: SignalKind,
        name: &'a [u8],
    },
    /// `graph` is the graph that the state stands in; 65,535 for the root, which stands in none.
    State {
        graph: u16,
        kind: StateKind,
        name: &'a [u8],
    },
    /// `owner` is the macrostate that holds the graph.
    Graph {
        owner: u16,
    },
    Transition {
        source: u16,
        target: u16,
        kind: TransitionKind,
        immediate: bool,
    },
    Suspension {
        state: u16,
    },
    /// The condition of the transition or suspension in front, in postfix; each byte is to be a symbol.
    Trigger {
        postfix: &'a [u8],
    },
    /// The signals that the simple state or transition in front emits.
    Effects {
        signals: &'a [u8],
    },
}

impl Field<'_> {
    pub fn tag(&self) -> Tag
        ensures { result ≡ tag_of (stated self.now) }
    {
        match self {
            Field::Signal { .. } => Tag::Signal,
            Field::State { .. } => Tag::State,
            Field::Graph { .. } => Tag::Graph,
            Field::Transition { .. } => Tag::Transition,
            Field::Suspension { .. } => Tag::Suspension,
            Field::Trigger { .. } => Tag::Trigger,
            Field::Effects { .. } => Tag::Effects,
        }
    }
}

/// A field and the byte number, from 0, of its tag.
#[derive(Clone, Copy)]
pub struct Placed<'a> {
    pub place: usize,
    pub field: Field<'a>,
}
