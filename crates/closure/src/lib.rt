// Which numbers lead to which along marked edges.
#![tactic(auto)]

ghost use Rattle.std.specs.Prelude.{◌≡◌, ℕ, min};
ghost use Rattle.closure.specs.Rows.{told};
ghost use Rattle.closure.specs.Edges.{edge_steps};
ghost use Rattle.validity.specs.Closure.{leads};

mod relation;
mod row;

use relation::Relation;
use row::Row;

/// An edge from one number to another; only marked ones are steps.
// The mark is a field and no `Option`: the definitions of steps read the ends of each edge, marked or not.
#[derive(Clone, Copy)]
pub struct Edge {
    pub source: u16,
    pub target: u16,
    pub marked: bool,
}

/// Which numbers below a size, at most 256, lead to which, by one step or more.
#[derive(Drop)]
pub struct Reach {
    rows: [Row; 256],
}

impl Reach {
    /// Of the numbers below `size`, or of all below 256 if it is larger. Edges with other ends do not count.
    pub fn of(size: usize, edges: &[Edge]) -> Reach
        ensures { (x y : ℕ) → told result x y ≡ leads (min size 256) (edge_steps edges.now) x y }
    {
        let mut relation = Relation::of(size, edges);
        relation.close();
        Reach {
            rows: relation.rows,
        }
    }

    /// Whether marked edges lead from one number to the other.
    pub fn leads(&self, from: usize, to: usize) -> bool
        ensures { result ≡ told self.now from to }
    {
        from < 256 && to < 256 && self.rows[from].has(to)
    }
}
