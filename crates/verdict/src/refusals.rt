// The text of a refusal: a line with its number, layer and place, and a sentence.
ghost use Rattle.std.specs.Prelude.{IfOk, string_bytes};
ghost use Rattle.verdict.specs.Texts.{Begins};

use chart::refusals::RefusalCode;
use std::alloc::{AllocError, Global};
use std::fmt;

/// The line of a refusal with this code, and behind it the sentence.
pub fn text<S: fmt::Display + Drop>(
    heap: Global,
    code: RefusalCode,
    sentence: S,
) -> Result<String, AllocError>
    ensures { IfOk result (λ text. Begins code (string_bytes text)) }
{
    // What the sentence writes is not known; as a text of its own it leaves the line in front of it known.
    let sentence = format!(in heap; "{sentence}")?;
    format!(in heap; "{code}\n{sentence}\n")
}
