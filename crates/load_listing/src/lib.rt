// The listing of a chart: what is in it, or why its file is refused.
#![tactic(auto)]

ghost use Rattle.std.specs.Prelude.{◌≡◌, [], is_ok, IfOk, if◌then◌else◌, string_bytes};
ghost use Rattle.loading.specs.Loading.{loading as outcome_of};
ghost use Rattle.loading.specs.Meaning.{copy_in, fields_for};
ghost use Rattle.load_verdict.specs.Texts.{Told};
ghost use Rattle.verdict.specs.Texts.{Ends};

use load_verdict::refusal_text;
use loading::charts::Chart;
use std::alloc::{AllocError, Global};
use verdict::summary::with_summary;

/// All that is in a chart, and at the end how much it is.
pub fn listing(heap: Global, chart: &Chart) -> Result<String, AllocError>
    ensures { IfOk result (λ text. Ends (fields_for chart.now) (string_bytes text)) }
{
    let text = sections::all(heap, chart)?;
    with_summary(text, chart.tables())
}

/// Loads the bytes into the chart, and gives its listing, or says why they are refused.
pub fn report(heap: Global, chart: &mut Chart, bytes: &[u8]) -> Result<String, AllocError>
    ensures told { IfOk result (λ text. Told bytes.now (string_bytes text)) }
    ensures copy { copy_in chart.new ≡ (if is_ok (outcome_of bytes.now) then bytes.now else []) }
{
    match chart.load(bytes) {
        Ok(()) => listing(heap, chart),
        Err(refusal) => refusal_text(heap, &refusal),
    }
}
