// All sections of a listing.
use crate::section::Section;
use crate::signals::Signals;
use crate::suspensions::Suspensions;
use crate::transitions::{Marks, Transitions};
use std::fmt;
use tables::tables::Tables;

/// Signals, states, transitions and suspensions.
#[derive(Drop)]
pub struct Sections<'a, S: Drop, M: Marks + Copy> {
    pub tables: &'a Tables,
    /// The lines of states and graphs.
    pub states: S,
    pub marks: M,
}

impl<S: fmt::Display + Drop, M: Marks + Copy> fmt::Display for Sections<'_, S, M> {
    fn fmt<W: fmt::Write>(&self, f: &mut fmt::Formatter<W>) -> fmt::Result {
        let tables = self.tables;
        let marks = self.marks;
        let signals = Section {
            title: "signals",
            lines: (!tables.signals().is_empty()).then_some(Signals { tables }),
        };
        let has_states = !tables.states().is_empty() || !tables.graphs().is_empty();
        let states = Section {
            title: "states",
            lines: has_states.then_some(&self.states),
        };
        let transitions = Section {
            title: "transitions",
            lines: (!tables.transitions().is_empty()).then_some(Transitions { tables, marks }),
        };
        let suspensions = Section {
            title: "suspensions",
            lines: (!tables.suspensions().is_empty()).then_some(Suspensions { tables }),
        };
        write!(f, "{signals}{states}{transitions}{suspensions}")
    }
}
