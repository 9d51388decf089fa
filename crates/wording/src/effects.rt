// Effects as text.
ghost use Rattle.std.specs.Prelude.{Some};
ghost use Rattle.tables.specs.Views.{fields_of};
ghost use Rattle.wording.specs.Shown.{effects_shown};

use crate::names::SignalName;
use std::fmt;
use tables::tables::Tables;

/// ` / ` and the signals' names, or nothing if there are none.
#[derive(Clone, Copy)]
pub struct Effects<'a> {
    pub tables: &'a Tables,
    pub signals: &'a [u8],
}

impl fmt::Display for Effects<'_> {
    ghost output = { λ e. Some (effects_shown (fields_of e.tables.now) e.signals.now) };

    fn fmt<W: fmt::Write>(&self, f: &mut fmt::Formatter<W>) -> fmt::Result {
        let [first, others @ ..] = self.signals else {
            return Ok(());
        };
        let name = SignalName::of(self.tables, *first);
        write!(f, " / {name}")?;
        for other in others {
            let name = SignalName::of(self.tables, *other);
            write!(f, ", {name}")?;
        }
        Ok(())
    }
}
