// The listing of a chart file: what is in it, or why it is refused.
#![tactic(auto)]

ghost use Rattle.std.specs.Prelude.{IfOk, string_bytes};
ghost use Rattle.tables.specs.Views.{fields_of};
ghost use Rattle.verdict.specs.Texts.{Told, Ends};

use crate::marks::Unmarked;
use crate::outline::Outline;
use std::alloc::{AllocError, Global};
use tables::tables::Tables;
use verdict::refusal_text;
use verdict::summary::with_summary;
use wording::sections::Sections;

mod marks;
mod outline;
mod states;

/// The listing of a chart file, or why it is refused.
pub fn listing(heap: Global, bytes: &[u8]) -> Result<String, AllocError>
    ensures { IfOk result (λ text. Told bytes.now (string_bytes text)) }
{
    let mut tables = Tables::new(heap)?;
    match tables.read(bytes) {
        Ok(()) => chart_text(heap, &tables),
        Err(refusal) => refusal_text(heap, &refusal),
    }
}

/// All sections, and the summary behind them.
fn chart_text(heap: Global, tables: &Tables) -> Result<String, AllocError>
    ensures { IfOk result (λ text. Ends (fields_of tables.now) (string_bytes text)) }
{
    let sections = Sections {
        tables,
        states: Outline::new(heap, tables)?,
        marks: Unmarked,
    };
    let text = format!(in heap; "{sections}")?;
    with_summary(text, tables)
}
