// The tree of states: below a state its graphs, below a graph its states, from state 0 on.
ghost use Rattle.std.specs.Prelude.{◌≡◌, ◌+◌, ◌≤◌, IfOk, vec_len};

use std::alloc::{AllocError, Global};
use tables::tables::Tables;

/// A state or a graph by its number.
#[derive(Clone, Copy, PartialEq, Eq)]
pub(crate) enum Item {
    State(usize),
    Graph(usize),
}

impl Item {
    /// What the item stands directly below.
    fn upper(self, tables: &Tables) -> Item {
        match self {
            Item::State(state) => Item::Graph(usize::from(tables.graph_of(state))),
            Item::Graph(graph) => Item::State(usize::from(tables.owner_of(graph))),
        }
    }
}

/// An item of the tree and how far it is indented.
#[derive(Clone, Copy)]
pub(crate) struct Node {
    pub(crate) item: Item,
    pub(crate) level: usize,
}

/// All states and graphs of a chart.
#[derive(Drop)]
pub(crate) struct Outline<'a> {
    heap: Global,
    pub(crate) tables: &'a Tables,
    /// State 0 and what it holds, each behind what it stands below.
    pub(crate) nodes: Vec<Node>,
    /// What state 0 does not hold: graphs and, behind them, states.
    pub(crate) strays: Vec<Item>,
}

impl<'a> Outline<'a> {
    pub(crate) fn new(heap: Global, tables: &'a Tables) -> Result<Outline<'a>, AllocError> {
        let mut outline = Outline {
            heap,
            tables,
            nodes: Vec::new(heap),
            strays: below_root(heap, tables)?,
        };
        if !tables.states().is_empty() {
            outline.add(Item::State(0), 1)?;
        }
        Ok(outline)
    }

    /// Adds the item at the level, and behind it what it holds, and takes that out of the strays.
    fn add(&mut self, item: Item, level: usize) -> Result<(), AllocError>
        ensures { vec_len self.new.strays ≤ vec_len self.old.strays }
    {
        self.nodes.push(Node { item, level })?;
        let below = self.take_below(item)?;
        for item in &below {
            self.add(*item, level.saturating_add(1))?;
        }
        Ok(())
    }

    /// Takes what stands directly below the item out of the strays.
    fn take_below(&mut self, upper: Item) -> Result<Vec<Item>, AllocError>
        ensures taken { IfOk result (λ below. vec_len below + vec_len self.new.strays ≡ vec_len self.old.strays) }
        ensures fewer { vec_len self.new.strays ≤ vec_len self.old.strays }
    {
        let tables = self.tables;
        let items = self.strays.iter().copied();
        let (below, others) = items.partition(self.heap, |item| item.upper(tables) == upper)?;
        self.strays = others;
        Ok(below)
    }
}

/// All graphs and, behind them, all states but state 0.
fn below_root(heap: Global, tables: &Tables) -> Result<Vec<Item>, AllocError> {
    let graphs = (0..tables.graph_count()).map(Item::Graph);
    let states = (1..tables.state_count()).map(Item::State);
    graphs.chain(states).collect(heap)
}
