// Steps between numbers, as rows of bits, and what they lead to.
ghost use Rattle.std.specs.Prelude.{◌≡◌, ℕ, ◌<◌, ◌≤◌, min, ◌&&◌, ◌||◌};
ghost use Rattle.closure.specs.Rows.{holds, among, OnlyBelow};
ghost use Rattle.closure.specs.Edges.{is_step, edge_step, edge_steps};
ghost use Rattle.validity.specs.Closure.{leads};

use crate::Edge;
use crate::row::Row;

/// Steps between numbers below a size: the row of x holds what a step leads to from x.
// An array with a size: loading takes no memory.
#[derive(Drop)]
pub(crate) struct Relation {
    pub(crate) rows: [Row; 256],
    size: usize,
    ghost small: { size ≤ 256 },
    ghost within: { OnlyBelow size (holds rows) },
}

impl Relation {
    /// Of the numbers below `size`, or of all below 256 if it is larger: the steps along the marked edges that join them.
    pub(crate) fn of(size: usize, edges: &[Edge]) -> Relation
        ensures size { result.size ≡ min size 256 }
        ensures steps { (x y : ℕ) → x < 256 → y < 256 → holds result.rows x y ≡ among (min size 256) (edge_steps edges.now) x y }
    {
        let mut relation = Relation {
            rows: [Row::empty(); 256],
            size: size.min(256),
        };
        for edge in edges {
            relation.add(*edge);
        }
        relation
    }

    // The edge is a step too if it is marked and joins numbers below the size.
    fn add(&mut self, edge: Edge)
        ensures size { self.new.size ≡ self.old.size }
        ensures steps { (x y : ℕ) → x < 256 → y < 256 → holds self.new.rows x y ≡ (holds self.old.rows x y || among self.old.size (edge_step edge) x y) }
    {
        if self.is_step(edge) {
            self.rows[usize::from(edge.source)].insert(usize::from(edge.target));
        }
    }

    // The edge is marked and joins numbers below the size.
    fn is_step(&self, edge: Edge) -> bool
        ensures { result ≡ is_step self.now.size edge }
    {
        edge.marked && usize::from(edge.source) < self.size && usize::from(edge.target) < self.size
    }

    /// A number steps to what one or more steps led to.
    pub(crate) fn close(&mut self)
        ensures { (x y : ℕ) → x < 256 → y < 256 → holds self.new.rows x y ≡ leads self.old.size (holds self.old.rows) x y }
    {
        // Over numbers and not over rows: each number is joined into all rows.
        for middle in 0..self.size {
            self.join(middle);
        }
    }

    // What steps to `middle` steps to what `middle` steps to.
    fn join(&mut self, middle: usize)
        requires { middle < self.old.size }
        ensures size { self.new.size ≡ self.old.size }
        ensures steps { (x y : ℕ) → x < 256 → y < 256 → holds self.new.rows x y ≡ (holds self.old.rows x y || holds self.old.rows x middle && holds self.old.rows middle y) }
    {
        let beyond = self.rows[middle];
        for row in self.rows.iter_mut() {
            if row.has(middle) {
                *row = row.union(beyond);
            }
        }
    }
}
