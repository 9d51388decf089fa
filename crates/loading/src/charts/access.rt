// What a chart holds.
ghost use Rattle.std.specs.Prelude.{◌≡◌, true};
ghost use Rattle.validity.specs.Sound.{Sound};
ghost use Rattle.loading.specs.Meaning.{copy_in, is_loaded, meaning};

use crate::charts::Chart;
use tables::tables::Tables;

impl Chart {
    /// Whether a chart is loaded. A loaded chart is sound.
    pub fn is_loaded(&self) -> bool
        ensures told { result ≡ is_loaded self.now }
        ensures sound { result ≡ true → Sound (meaning self.now) }
    {
        !self.tables.file().bytes().is_empty()
    }

    /// The copy of the file; no byte if the chart is empty.
    pub fn file(&self) -> &[u8]
        ensures { result.now ≡ copy_in self.now }
    {
        self.tables.file().bytes()
    }

    /// Signals, states, graphs, transitions and suspensions by number.
    pub fn tables(&self) -> &Tables
        ensures { result.now ≡ self.now.tables }
    {
        &self.tables
    }
}
