// The tables are filled from a chart file.
ghost use Rattle.std.specs.Prelude.{◌≡◌, [], IfOk, MatchResult};
ghost use Rattle.chart.specs.Files.{Passes, Refused};
ghost use Rattle.chart.specs.Reading.{row_of};

use crate::column::Column;
use crate::file::ChartFile;
use crate::tables::Tables;
use chart::refusals::Refusal;
use std::alloc::{AllocError, Global};

impl Tables {
    /// Of no file, with room for every file.
    pub fn new(heap: Global) -> Result<Tables, AllocError>
        ensures { IfOk result (λ t. t.file.bytes.items ≡ []) }
    {
        Ok(Tables {
            file: ChartFile::new(heap)?,
            signals: Column::new(heap)?,
            states: Column::new(heap)?,
            graphs: Column::new(heap)?,
            transitions: Column::new(heap)?,
            suspensions: Column::new(heap)?,
        })
    }

    /// The tables of no file.
    pub fn clear(&mut self)
        ensures { self.new.file.bytes.items ≡ [] }
    {
        self.file.clear();
        self.signals.clear();
        self.states.clear();
        self.graphs.clear();
        self.transitions.clear();
        self.suspensions.clear();
    }

    /// The tables of a file that passes the first layer; of any other it says why it is refused, and they are those of no file.
    pub fn read(&mut self, bytes: &[u8]) -> Result<(), Refusal>
        ensures { MatchResult result (λ _. Passes bytes.now (row_of bytes.now) × (self.new.file.bytes.items ≡ bytes.now)) (λ e. Refused bytes.now e × (self.new.file.bytes.items ≡ [])) }
    {
        let answer = self.file.read(bytes);
        self.signals.fill(&self.file);
        self.states.fill(&self.file);
        self.graphs.fill(&self.file);
        self.transitions.fill(&self.file);
        self.suspensions.fill(&self.file);
        answer
    }
}
