// The section on suspensions.
use crate::names::StateName;
use crate::triggers::Condition;
use std::fmt;
use tables::rows::Suspension;
use tables::tables::Tables;

/// A line for each suspension.
#[derive(Clone, Copy)]
pub struct Suspensions<'a> {
    pub tables: &'a Tables,
}

impl fmt::Display for Suspensions<'_> {
    fn fmt<W: fmt::Write>(&self, f: &mut fmt::Formatter<W>) -> fmt::Result {
        let tables = self.tables;
        for suspension in tables.suspensions() {
            let line = Line { tables, suspension };
            write!(f, "{line}\n")?;
        }
        Ok(())
    }
}

/// The state that is suspended, and when.
#[derive(Clone, Copy)]
struct Line<'a> {
    tables: &'a Tables,
    suspension: &'a Suspension,
}

impl fmt::Display for Line<'_> {
    fn fmt<W: fmt::Write>(&self, f: &mut fmt::Formatter<W>) -> fmt::Result {
        let tables = self.tables;
        let state = StateName::of(tables, self.suspension.state);
        let trigger = self.suspension.trigger.map(|span| tables.bytes(span));
        let condition = Condition { tables, trigger };
        write!(f, "  {state}{condition}")
    }
}
