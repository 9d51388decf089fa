// The section on states.
use crate::outline::{Item, Node, Outline};
use std::fmt;
use tables::tables::Tables;
use wording::effects::Effects;
use wording::indent::Indent;
use wording::names::state_name;

impl fmt::Display for Outline<'_> {
    fn fmt<W: fmt::Write>(&self, f: &mut fmt::Formatter<W>) -> fmt::Result {
        self.write_nodes(f)?;
        self.write_strays(f)
    }
}

impl Outline<'_> {
    fn write_nodes<W: fmt::Write>(&self, f: &mut fmt::Formatter<W>) -> fmt::Result {
        let tables = self.tables;
        for node in &self.nodes {
            let node = *node;
            let line = NodeLine { tables, node };
            write!(f, "{line}\n")?;
        }
        Ok(())
    }

    fn write_strays<W: fmt::Write>(&self, f: &mut fmt::Formatter<W>) -> fmt::Result {
        let tables = self.tables;
        if !self.strays.is_empty() {
            f.write_str("  not under state 0:\n")?;
        }
        for item in &self.strays {
            let item = *item;
            let line = StrayLine { tables, item };
            write!(f, "    {line}\n")?;
        }
        Ok(())
    }
}

/// An item of the tree.
#[derive(Clone, Copy)]
struct NodeLine<'a> {
    tables: &'a Tables,
    node: Node,
}

impl fmt::Display for NodeLine<'_> {
    fn fmt<W: fmt::Write>(&self, f: &mut fmt::Formatter<W>) -> fmt::Result {
        let Node { item, level } = self.node;
        let indent = Indent { level };
        match item {
            Item::State(number) => {
                let initial = if is_initial(self.tables, number) {
                    "initial "
                } else {
                    ""
                };
                let kind = self.tables.kind_of(number);
                let name = state_name(self.tables, number);
                let effects = sustained(self.tables, number);
                write!(f, "{indent}{number} {initial}{kind} {name}{effects}")
            }
            Item::Graph(number) => write!(f, "{indent}graph {number}:"),
        }
    }
}

/// An item that the tree does not reach.
#[derive(Clone, Copy)]
struct StrayLine<'a> {
    tables: &'a Tables,
    item: Item,
}

impl fmt::Display for StrayLine<'_> {
    fn fmt<W: fmt::Write>(&self, f: &mut fmt::Formatter<W>) -> fmt::Result {
        match self.item {
            Item::State(number) => {
                let kind = self.tables.kind_of(number);
                let name = state_name(self.tables, number);
                let graph = self.tables.graph_of(number);
                let effects = sustained(self.tables, number);
                write!(f, "{number} {kind} {name} in graph {graph}{effects}")
            }
            Item::Graph(number) => {
                let owner = self.tables.owner_of(number);
                write!(f, "graph {number} of state {owner}")
            }
        }
    }
}

fn sustained(tables: &Tables, state: usize) -> Effects<'_> {
    Effects {
        tables,
        signals: tables.sustained_by(state),
    }
}

/// Whether the state is the first with its graph's number. State 0 stands in no graph.
fn is_initial(tables: &Tables, state: usize) -> bool {
    let graph = tables.graph_of(state);
    state > 0
        && !tables
            .states()
            .iter()
            .take(state)
            .any(|earlier| earlier.graph == graph)
}
