// The section on signals.
use crate::names::signal_name;
use std::fmt;
use tables::tables::Tables;

/// A line for each signal.
#[derive(Clone, Copy)]
pub struct Signals<'a> {
    pub tables: &'a Tables,
}

impl fmt::Display for Signals<'_> {
    fn fmt<W: fmt::Write>(&self, f: &mut fmt::Formatter<W>) -> fmt::Result {
        for (number, signal) in self.tables.signals().iter().enumerate() {
            let kind = signal.kind;
            let name = signal_name(self.tables, number);
            write!(f, "  {number} {kind} {name}\n")?;
        }
        Ok(())
    }
}
