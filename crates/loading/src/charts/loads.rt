// A chart is loaded from a file, or refused and left empty.
ghost use Rattle.std.specs.Prelude.{◌≡◌, [], is_ok, IfOk, if◌then◌else◌, Ok, Err, MatchResult};
ghost use Rattle.tables.specs.Views.{fields_of};
ghost use Rattle.rules.specs.Judged.{Judged};
ghost use Rattle.loading.specs.Loading.{loading};

use crate::charts::Chart;
use crate::refusals::Refusal;
use chains::Chains;
use derived::Derived;
use rules::all::check;
use std::alloc::{AllocError, Global};
use tables::tables::Tables;

impl Chart {
    /// An empty chart.
    pub fn new(heap: Global) -> Result<Chart, AllocError>
        ensures { IfOk result (λ c. c.tables.file.bytes.items ≡ []) }
    {
        let tables = Tables::new(heap)?;
        let derived = Derived::new(heap)?;
        Ok(Chart { tables, derived })
    }

    /// Loads a chart and keeps a copy of its file; of any other file it says why it is refused, and the chart is empty. It takes no memory.
    pub fn load(&mut self, bytes: &[u8]) -> Result<(), Refusal>
        ensures answer { result ≡ loading bytes.now }
        ensures copy { self.new.tables.file.bytes.items ≡ (if is_ok result then bytes.now else []) }
    {
        match judge(&mut self.tables, bytes) {
            Ok(chains) => {
                self.derived.fill(&self.tables, &chains);
                Ok(())
            }
            // No `?` here: what was read of a refused file is cleared first.
            Err(refusal) => {
                self.tables.clear();
                self.derived.clear();
                Err(refusal)
            }
        }
    }
}

// The tables of a chart, and its chain transitions; or why the file is refused.
fn judge(tables: &mut Tables, bytes: &[u8]) -> Result<Chains, Refusal>
    ensures { MatchResult result (λ c. (loading bytes.now ≡ Ok tt) × (tables.new.file.bytes.items ≡ bytes.now) × Judged (fields_of tables.new) c) (λ e. loading bytes.now ≡ Err e) }
{
    tables.read(bytes)?;
    Ok(check(tables)?)
}
