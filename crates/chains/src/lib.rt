// The chain transitions of a chart, and which states they lead to which.
#![tactic(auto)]

ghost use Rattle.std.specs.Prelude.{◌≡◌, ℕ, false, slice_index_or};
ghost use Rattle.closure.specs.Rows.{told};
ghost use Rattle.validity.specs.Tables.{is_chain_by, is_chain, chain_leads};
ghost use Rattle.tables.specs.Views.{fields_of};
ghost use Rattle.chains.specs.Marks.{marked};

use closure::{Edge, Reach};
use std::array;
use tables::tables::Tables;

pub mod endings;

use endings::Endings;

/// The chain transitions of a chart, and which states they lead to which.
#[derive(Drop)]
pub struct Chains {
    // By number of the transition, whether it is a chain transition. An array for every chart: loading takes no memory.
    marks: [bool; 512],
    reach: Reach,
}

impl Chains {
    /// At first the immediate transitions are marked. A turn marks beside these the normal ones whose source may end by what was marked before it. The first turn that changes no mark is the last, and so is the eighth.
    /// That takes one closure, and one more for each turn that changes a mark: at most nine. Besides, a turn looks at each state at most twice for each graph, and at each graph at most once for each normal transition.
    pub fn of(tables: &Tables) -> Chains
        ensures chain { (t : ℕ) → marked result t ≡ is_chain (fields_of tables.now) t }
        ensures leads { (x y : ℕ) → told result.reach x y ≡ chain_leads (fields_of tables.now) (is_chain (fields_of tables.now)) x y }
    {
        let mut marks = array::from_fn(|transition| tables.is_immediate(transition));
        let mut reach = reach_by(tables, &marks);
        // A bounded number of turns, each over the marks of the one before it.
        for _turn in 0..8usize {
            let next = chain_marks(tables, &reach);
            if next == marks {
                break;
            }
            reach = reach_by(tables, &next);
            marks = next;
        }
        Chains { marks, reach }
    }

    /// Whether the transition with this number is a chain transition.
    pub fn is_chain(&self, transition: usize) -> bool
        ensures { result ≡ marked self.now transition }
    {
        matches!(self.marks.get(transition), Some(true))
    }

    /// Whether chain transitions lead from one state to the other, one at least.
    pub fn leads(&self, from: usize, to: usize) -> bool
        ensures { result ≡ told self.now.reach from to }
    {
        self.reach.leads(from, to)
    }
}

// By number of the transition, whether it is a chain transition by what those marked so far lead to.
fn chain_marks(tables: &Tables, reach: &Reach) -> [bool; 512]
    ensures { (t : ℕ) → slice_index_or result t false ≡ is_chain_by (fields_of tables.now) (told reach.now) t }
{
    let endings = Endings::of(tables, reach);
    array::from_fn(|transition| endings.is_chain(transition))
}

// What the marked transitions lead to.
fn reach_by(tables: &Tables, marks: &[bool; 512]) -> Reach
    ensures { (x y : ℕ) → told result x y ≡ chain_leads (fields_of tables.now) (λ t. slice_index_or marks.now t false) x y }
{
    // An array for every chart: loading takes no memory.
    let edges: [Edge; 512] = array::from_fn(|transition| Edge {
        source: tables.source_of(transition),
        target: tables.target_of(transition),
        marked: marks[transition],
    });
    Reach::of(tables.state_count(), &edges[..tables.transition_count()])
}
