// What is derived for a chart: depth and rank of a state, the initial state of a graph, chain transitions, and which transitions, states and graphs belong together.
ghost use Rattle.std.specs.Prelude.{◌≡◌, false, [], if◌then◌else◌, Some, None, nat_eq, nat_lt};
ghost use Rattle.groups.specs.Numbers.{those};
ghost use Rattle.validity.specs.Chart.{rank};
ghost use Rattle.validity.specs.Tables.{is_in};
ghost use Rattle.tables.specs.Spans.{spanned_if};
ghost use Rattle.loading.specs.Meaning.{copy_in, fields_for, meaning};

use crate::charts::Chart;
use tables::rows::Span;

// Each asks first whether the chart has the number. One line each, they differ in what they ask for; a function for that line would need the same closure.
impl Chart {
    /// How deep the state stands; the root stands at 1.
    pub fn depth(&self, state: usize) -> Option<u16>
        ensures { result ≡ (if nat_lt state (meaning self.now).states then Some ((meaning self.now).depth state) else None) }
    {
        (state < self.tables.state_count()).then(|| self.derived.depth(state))
    }

    /// From how many states chain transitions reach the state. Along a chain transition the rank rises.
    pub fn rank(&self, state: usize) -> Option<u16>
        ensures { result ≡ (if nat_lt state (meaning self.now).states then Some (rank (meaning self.now) state) else None) }
    {
        (state < self.tables.state_count()).then(|| self.derived.rank(state))
    }

    /// The initial state of the graph.
    pub fn initial(&self, graph: usize) -> Option<u16>
        ensures { result ≡ (if nat_lt graph (meaning self.now).graphs then Some ((meaning self.now).initial graph) else None) }
    {
        (graph < self.tables.graph_count()).then(|| self.derived.initial(graph))
    }

    /// Whether the transition is a chain transition.
    pub fn is_chain(&self, transition: usize) -> bool
        ensures { result ≡ (if nat_lt transition (meaning self.now).transitions then (meaning self.now).chain transition else false) }
    {
        transition < self.tables.transition_count() && self.derived.is_chain(transition)
    }

    /// Where the trigger of the state's suspension stands, if it has one.
    pub fn suspension(&self, state: usize) -> Option<Span>
        ensures { spanned_if (copy_in self.now) result ≡ (if nat_lt state (meaning self.now).states then (meaning self.now).suspension state else None) }
    {
        (state < self.tables.state_count())
            .then(|| self.derived.suspension(state))
            .flatten()
    }

    /// The transitions that leave the state, in file order: earlier ones go before later ones.
    pub fn transitions_from(&self, state: usize) -> &[u16]
        ensures { result.now ≡ (if nat_lt state (meaning self.now).states then those (meaning self.now).transitions (λ t. nat_eq ((meaning self.now).source t) state) else []) }
    {
        (state < self.tables.state_count())
            .then(|| self.derived.outgoing(state))
            .unwrap_or_default()
    }

    /// The transitions that lead to the state, in file order.
    pub fn transitions_to(&self, state: usize) -> &[u16]
        ensures { result.now ≡ (if nat_lt state (meaning self.now).states then those (meaning self.now).transitions (λ t. nat_eq ((meaning self.now).target t) state) else []) }
    {
        (state < self.tables.state_count())
            .then(|| self.derived.incoming(state))
            .unwrap_or_default()
    }

    /// The states of the graph, the initial one first.
    pub fn states_in(&self, graph: usize) -> &[u16]
        ensures { result.now ≡ (if nat_lt graph (meaning self.now).graphs then those (meaning self.now).states (is_in (fields_for self.now) graph) else []) }
    {
        (graph < self.tables.graph_count())
            .then(|| self.derived.members(graph))
            .unwrap_or_default()
    }

    /// The graphs that the state owns.
    pub fn graphs_of(&self, state: usize) -> &[u16]
        ensures { result.now ≡ (if nat_lt state (meaning self.now).states then those (meaning self.now).graphs (λ g. nat_eq ((meaning self.now).owner g) state) else []) }
    {
        (state < self.tables.state_count())
            .then(|| self.derived.owned(state))
            .unwrap_or_default()
    }
}
