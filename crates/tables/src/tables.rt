// The tables of a chart file: its signals, states, graphs, transitions and suspensions, each by number.
ghost use Rattle.chart.specs.declared.kinds.Tag.TheVariants.{Signal as of_signal, State as of_state, Graph as of_graph, Transition as of_transition, Suspension as of_suspension};
ghost use Rattle.chart.specs.Fields.{is};
ghost use Rattle.chart.specs.Reading.{row_of};
ghost use Rattle.tables.specs.Columns.{RowsOf};
ghost use Rattle.tables.specs.Rows.{signal_at, state_at, graph_at, transition_at, suspension_at};

use crate::column::Column;
use crate::file::ChartFile;
use crate::rows::{Graph, Signal, State, Suspension, Transition};

mod filling;
mod names;
mod numbers;
mod texts;
mod zeros;

/// A chart file and its tables. There is room for every file.
#[derive(Drop)]
pub struct Tables {
    file: ChartFile,
    signals: Column<Signal>,
    states: Column<State>,
    graphs: Column<Graph>,
    transitions: Column<Transition>,
    suspensions: Column<Suspension>,
    ghost signals_told: { RowsOf (is of_signal) (signal_at (row_of file.bytes.items)) (row_of file.bytes.items) signals.rows.items },
    ghost states_told: { RowsOf (is of_state) (state_at (row_of file.bytes.items)) (row_of file.bytes.items) states.rows.items },
    ghost graphs_told: { RowsOf (is of_graph) (graph_at (row_of file.bytes.items)) (row_of file.bytes.items) graphs.rows.items },
    ghost transitions_told: { RowsOf (is of_transition) (transition_at (row_of file.bytes.items)) (row_of file.bytes.items) transitions.rows.items },
    ghost suspensions_told: { RowsOf (is of_suspension) (suspension_at (row_of file.bytes.items)) (row_of file.bytes.items) suspensions.rows.items },
}
