// The sections of the listing of a chart.
#![tactic(auto)]

use crate::marks::ChainMarks;
use crate::outline::StateTree;
use loading::charts::Chart;
use std::alloc::{AllocError, Global};
use wording::sections::Sections;

mod marks;
mod outline;

/// All sections of a chart.
pub fn all(heap: Global, chart: &Chart) -> Result<String, AllocError> {
    let sections = Sections {
        tables: chart.tables(),
        states: StateTree::root(chart),
        marks: ChainMarks { chart },
    };
    format!(in heap; "{sections}")
}
