// The section on states, a tree: below a state its graphs, below a graph its states.
use loading::charts::Chart;
use std::fmt;
use wording::effects::Effects;
use wording::indent::Indent;
use wording::names::state_name;

/// The lines of a state and of all that is below it.
#[derive(Clone, Copy)]
pub(crate) struct StateTree<'a> {
    chart: &'a Chart,
    state: usize,
    depth: usize,
    /// Whether the state is the first in its graph. The root is in none.
    is_initial: bool,
}

/// The lines of a graph and of all that is below it.
#[derive(Clone, Copy)]
struct GraphTree<'a> {
    chart: &'a Chart,
    graph: usize,
    /// The depth of the owner.
    depth: usize,
}

impl fmt::Display for StateTree<'_> {
    #[cycle(outline)]
    fn fmt<W: fmt::Write>(&self, f: &mut fmt::Formatter<W>) -> fmt::Result {
        let StateTree { chart, depth, .. } = *self;
        self.write_line(f)?;
        for graph in chart.graphs_of(self.state) {
            let graph = usize::from(*graph);
            let tree = GraphTree {
                chart,
                graph,
                depth,
            };
            tree.fmt(f)?;
        }
        Ok(())
    }
}

impl fmt::Display for GraphTree<'_> {
    #[cycle(outline)]
    fn fmt<W: fmt::Write>(&self, f: &mut fmt::Formatter<W>) -> fmt::Result {
        let chart = self.chart;
        let graph = self.graph;
        let indent = Indent {
            level: graph_level(self.depth),
        };
        write!(f, "{indent}graph {graph}:\n")?;
        for (i, state) in chart.states_in(graph).iter().enumerate() {
            let tree = StateTree {
                chart,
                state: usize::from(*state),
                depth: self.depth.saturating_add(1),
                is_initial: i == 0,
            };
            tree.fmt(f)?;
        }
        Ok(())
    }
}

impl<'a> StateTree<'a> {
    /// The whole tree.
    pub(crate) fn root(chart: &'a Chart) -> StateTree<'a> {
        StateTree {
            chart,
            state: 0,
            depth: 1,
            is_initial: false,
        }
    }

    /// The line of the state itself.
    fn write_line<W: fmt::Write>(&self, f: &mut fmt::Formatter<W>) -> fmt::Result {
        let tables = self.chart.tables();
        let state = self.state;
        let depth = self.depth;
        let level = graph_level(depth).saturating_sub(1);
        let indent = Indent { level };
        let initial = if self.is_initial { "initial " } else { "" };
        let kind = tables.kind_of(state);
        let name = state_name(tables, state);
        let signals = tables.sustained_by(state);
        let effects = Effects { tables, signals };
        write!(
            f,
            "{indent}{state} {initial}{kind} {name}, depth {depth}{effects}\n"
        )
    }
}

/// How far the graphs of a state of this depth are indented; the state itself is by one level less.
fn graph_level(depth: usize) -> usize {
    depth.saturating_mul(2)
}
