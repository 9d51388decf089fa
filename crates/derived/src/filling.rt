// What is derived from a chart's tables is filled in.
ghost use Rattle.std.specs.Prelude.{◌≡◌, ℕ, ◌<◌, IfOk, nat_eq};
ghost use Rattle.closure.specs.Rows.{told};
ghost use Rattle.validity.specs.Ranges.{count_of};
ghost use Rattle.validity.specs.Tables.{states as states_in, graphs as graphs_in, transitions as transitions_in, depth_of, is_in, initial_of, owner_of, source_of, target_of};
ghost use Rattle.tables.specs.Views.{fields_of};
ghost use Rattle.groups.specs.Numbers.{those};
ghost use Rattle.chains.specs.Marks.{marked};
ghost use Rattle.derived.specs.Columns.{depth_at, suspension_at, rank_at, initial_at, chain_at, outgoing_at, incoming_at, members_at, owned_at, Empty};
ghost use Rattle.derived.specs.Suspended.{suspension_span};

use crate::Derived;
use crate::column::{fill_column, fill_groups};
use crate::facts::{StateFacts, graph_key, initial_of};
use chains::Chains;
use groups::Groups;
use std::alloc::{AllocError, Global};
use tables::tables::Tables;

impl Derived {
    /// Of no chart, with room for every chart.
    pub fn new(heap: Global) -> Result<Derived, AllocError>
        ensures { IfOk result Empty }
    {
        let states = Vec::with_capacity(heap, 256)?;
        let initials = Vec::with_capacity(heap, 128)?;
        let chain = Vec::with_capacity(heap, 512)?;
        let outgoing = Groups::new(heap, 256, 512)?;
        let incoming = Groups::new(heap, 256, 512)?;
        let members = Groups::new(heap, 128, 256)?;
        let owned = Groups::new(heap, 256, 128)?;
        let keys = Vec::with_capacity(heap, 512)?;
        Ok(Derived {
            states,
            initials,
            chain,
            outgoing,
            incoming,
            members,
            owned,
            keys,
        })
    }

    /// Nothing is derived.
    pub fn clear(&mut self)
        ensures { Empty self.new }
    {
        self.states.clear();
        self.initials.clear();
        self.chain.clear();
        self.outgoing.clear();
        self.incoming.clear();
        self.members.clear();
        self.owned.clear();
    }

    /// What is derived from these tables and their chain transitions. It takes no memory.
    /// It looks at each pair of states, of a graph and a state, of a suspension and a state, and of a transition and a state a few times at most.
    pub fn fill(&mut self, tables: &Tables, chains: &Chains)
        ensures depths { (s : ℕ) → s < states_in (fields_of tables.now) → depth_at self.new s ≡ depth_of (fields_of tables.now) s }
        ensures suspensions { (s : ℕ) → s < states_in (fields_of tables.now) → suspension_at self.new s ≡ suspension_span (fields_of tables.now) s }
        ensures ranks { (s : ℕ) → s < states_in (fields_of tables.now) → rank_at self.new s ≡ count_of (states_in (fields_of tables.now)) (λ x. told chains.now.reach x s) }
        ensures initials { (g : ℕ) → g < graphs_in (fields_of tables.now) → initial_at self.new g ≡ initial_of (fields_of tables.now) g }
        ensures chain { (t : ℕ) → t < transitions_in (fields_of tables.now) → chain_at self.new t ≡ marked chains.now t }
        ensures outgoing { (s : ℕ) → s < states_in (fields_of tables.now) → outgoing_at self.new s ≡ those (transitions_in (fields_of tables.now)) (λ t. nat_eq (source_of (fields_of tables.now) t) s) }
        ensures incoming { (s : ℕ) → s < states_in (fields_of tables.now) → incoming_at self.new s ≡ those (transitions_in (fields_of tables.now)) (λ t. nat_eq (target_of (fields_of tables.now) t) s) }
        ensures members { (g : ℕ) → g < graphs_in (fields_of tables.now) → members_at self.new g ≡ those (states_in (fields_of tables.now)) (is_in (fields_of tables.now) g) }
        ensures owned { (s : ℕ) → s < states_in (fields_of tables.now) → owned_at self.new s ≡ those (graphs_in (fields_of tables.now)) (λ g. nat_eq (owner_of (fields_of tables.now) g) s) }
    {
        let states = tables.state_count();
        let graphs = tables.graph_count();
        let transitions = tables.transition_count();
        fill_column(&mut self.states, states, |s| {
            StateFacts::of(tables, chains, s)
        });
        fill_column(&mut self.initials, graphs, |g| initial_of(tables, g));
        fill_column(&mut self.chain, transitions, |t| chains.is_chain(t));
        let keys = &mut self.keys;
        fill_groups(&mut self.outgoing, keys, transitions, states, |t| {
            tables.source_of(t)
        });
        fill_groups(&mut self.incoming, keys, transitions, states, |t| {
            tables.target_of(t)
        });
        fill_groups(&mut self.members, keys, states, graphs, |s| {
            graph_key(tables, s)
        });
        fill_groups(&mut self.owned, keys, graphs, states, |g| {
            tables.owner_of(g)
        });
    }
}
