// Why a chart file is not loaded, in a line and a sentence.
#![tactic(auto)]

ghost use Rattle.std.specs.Prelude.{IfOk, string_bytes};
ghost use Rattle.loading.specs.Numbers.{code_of};
ghost use Rattle.verdict.specs.Texts.{Begins};

use crate::sentences::Sentence;
use loading::refusals::Refusal;
use std::alloc::{AllocError, Global};
use verdict::refusals;

mod faults;
mod sentences;

// One line for each type of refusal; what they share is refusals::text.
/// The number, layer and place of a refusal, and behind them a sentence on it.
pub fn refusal_text(heap: Global, refusal: &Refusal) -> Result<String, AllocError>
    ensures { IfOk result (λ text. Begins (code_of refusal.now) (string_bytes text)) }
{
    refusals::text(heap, refusal.code(), Sentence(refusal))
}
