// What was derived, by number. Of one that nothing has it tells 0, none, or nothing.
ghost use Rattle.std.specs.Prelude.{◌≡◌};
ghost use Rattle.derived.specs.Columns.{facts_at, depth_at, suspension_at, rank_at, initial_at, chain_at, outgoing_at, incoming_at, members_at, owned_at};

// Numbers and no `Option`: these can't fail, as the accessors of the tables can't.
use crate::Derived;
use crate::facts::StateFacts;
use tables::rows::Span;

impl Derived {
    /// The depth of the state; the root's is 1.
    pub fn depth(&self, state: usize) -> u16
        ensures { result ≡ depth_at self.now state }
    {
        self.state(state).depth
    }

    /// Where the trigger of the state's suspension stands.
    pub fn suspension(&self, state: usize) -> Option<Span>
        ensures { result ≡ suspension_at self.now state }
    {
        self.state(state).suspension
    }

    /// From how many states chain transitions reach the state.
    pub fn rank(&self, state: usize) -> u16
        ensures { result ≡ rank_at self.now state }
    {
        self.state(state).rank
    }

    /// The initial state of the graph.
    pub fn initial(&self, graph: usize) -> u16
        ensures { result ≡ initial_at self.now graph }
    {
        self.initials.get(graph).copied().unwrap_or(0)
    }

    /// Whether the transition is a chain transition.
    pub fn is_chain(&self, transition: usize) -> bool
        ensures { result ≡ chain_at self.now transition }
    {
        self.chain.get(transition).copied().unwrap_or(false)
    }

    /// The transitions from the state, in file order.
    pub fn outgoing(&self, state: usize) -> &[u16]
        ensures { result.now ≡ outgoing_at self.now state }
    {
        self.outgoing.of(state)
    }

    /// The transitions to the state, in file order.
    pub fn incoming(&self, state: usize) -> &[u16]
        ensures { result.now ≡ incoming_at self.now state }
    {
        self.incoming.of(state)
    }

    /// The states of the graph, in file order.
    pub fn members(&self, graph: usize) -> &[u16]
        ensures { result.now ≡ members_at self.now graph }
    {
        self.members.of(graph)
    }

    /// The graphs that the state owns, in file order.
    pub fn owned(&self, state: usize) -> &[u16]
        ensures { result.now ≡ owned_at self.now state }
    {
        self.owned.of(state)
    }

    fn state(&self, state: usize) -> StateFacts
        ensures { result ≡ facts_at self.now state }
    {
        self.states.get(state).copied().unwrap_or_default()
    }
}
