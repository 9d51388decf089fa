// The parts of a chart file as rows of numbers. Names, triggers and effects are told by where they stand in the file.
use chart::kinds::{SignalKind, StateKind, TransitionKind};

/// Bytes of the file: the number of the first, from 0, and how many there are.
#[derive(Clone, Copy)]
pub struct Span {
    pub start: u16,
    pub length: u16,
}

#[derive(Clone, Copy)]
pub struct Signal {
    pub kind: SignalKind,
    pub name: Span,
}

#[derive(Clone, Copy)]
pub struct State {
    pub kind: StateKind,
    /// The graph that the state stands in; 65,535 for the root, which stands in none.
    pub graph: u16,
    pub name: Span,
    /// The signals that a simple state emits while it is active.
    pub effects: Option<Span>,
}

#[derive(Clone, Copy)]
pub struct Graph {
    /// The macrostate that holds the graph.
    pub owner: u16,
}

#[derive(Clone, Copy)]
pub struct Transition {
    pub source: u16,
    pub target: u16,
    pub kind: TransitionKind,
    pub immediate: bool,
    /// None counts as yes.
    pub trigger: Option<Span>,
    pub effects: Option<Span>,
}

#[derive(Clone, Copy)]
pub struct Suspension {
    /// The state that is suspended.
    pub state: u16,
    pub trigger: Option<Span>,
}

/// Where a field stands: the byte number of its tag, and how many states, graphs, transitions and suspensions stand in front of it.
#[derive(Clone, Copy, Default)]
pub struct Entry {
    pub place: u16,
    pub states: u16,
    pub graphs: u16,
    pub transitions: u16,
    pub suspensions: u16,
}
