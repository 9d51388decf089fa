// What a copied chart file holds.
ghost use Rattle.std.specs.Prelude.{◌≡◌, length};
ghost use Rattle.chart.specs.Stated.{stated_if};
ghost use Rattle.tables.specs.Entries.{entry_if, lookup};
ghost use Rattle.tables.specs.Copied.{fields_in};

use crate::file::ChartFile;
use crate::rows::Entry;
use chart::fields::Field;
use chart::lookup::field_at;

impl ChartFile {
    pub fn bytes(&self) -> &[u8]
        ensures { result.now ≡ self.now.bytes.items }
    {
        self.bytes.as_slice()
    }

    pub fn field_count(&self) -> usize
        ensures { result ≡ length (fields_in self.now) }
    {
        self.entries.len()
    }

    /// Where the field with this index stands.
    pub fn entry(&self, index: usize) -> Option<Entry>
        ensures { result ≡ entry_if (fields_in self.now) index }
    {
        self.entries.get(index).copied()
    }

    /// The field with this index.
    pub fn field(&self, index: usize) -> Option<Field<'_>>
        ensures { stated_if result ≡ lookup (fields_in self.now) index }
    {
        let entry = self.entry(index)?;
        field_at(&self.bytes, usize::from(entry.place))
    }
}
