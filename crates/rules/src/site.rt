// A field of a chart file, and where it stands.
ghost use Rattle.std.specs.Prelude.{◌≡◌, ◌<◌, ◌≤◌, length, MatchOption};
ghost use Rattle.chart.specs.Stated.{stated};
ghost use Rattle.validity.specs.Parts.{at};
ghost use Rattle.tables.specs.Entries.{entry_at};
ghost use Rattle.tables.specs.Views.{fields_of};

use chart::fields::Field;
use tables::rows::Entry;
use tables::tables::Tables;

/// A field of the file that the tables are of, with its index and its entry.
#[derive(Clone, Copy)]
pub(crate) struct Site<'a> {
    pub tables: &'a Tables,
    pub index: usize,
    pub entry: Entry,
    pub field: Field<'a>,
    ghost below: { index < length (fields_of tables.now) },
    ghost entered: { entry ≡ entry_at (fields_of tables.now) index },
    ghost told: { stated field ≡ at (fields_of tables.now) index },
}

impl<'a> Site<'a> {
    /// The field with this index, if there is one.
    // Inlined: a call costs more than the look-up.
    #[inline(always)]
    pub fn at(tables: &'a Tables, index: usize) -> Option<Site<'a>>
        ensures { MatchOption result (length (fields_of tables.now) ≤ index) (λ s. (s.tables.now ≡ tables.now) × (s.index ≡ index)) }
    {
        let entry = tables.file().entry(index)?;
        let field = tables.file().field(index)?;
        Some(Site {
            tables,
            index,
            entry,
            field,
        })
    }
}
