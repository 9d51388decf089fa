// What is told of a chart file in a line: how much it holds, or why it is refused.
#![tactic(auto)]

ghost use Rattle.std.specs.Prelude.{IfOk, string_bytes};
ghost use Rattle.chart.specs.Refusals.{code_of};
ghost use Rattle.verdict.specs.Texts.{Begins};

use crate::sentences::Sentence;
use chart::refusals::Refusal;
use std::alloc::{AllocError, Global};

pub mod refusals;
pub mod sentences;
pub mod summary;

// One line for each type of refusal; what they share is refusals::text.
/// The number, layer and place of the refusal, and behind them a sentence on it.
pub fn refusal_text(heap: Global, refusal: &Refusal) -> Result<String, AllocError>
    ensures { IfOk result (λ text. Begins (code_of refusal.now) (string_bytes text)) }
{
    refusals::text(heap, refusal.code(), Sentence(refusal))
}
