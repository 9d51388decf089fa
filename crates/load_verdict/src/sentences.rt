// A plain sentence on each refusal.
use crate::faults;
use loading::refusals::Refusal;
use std::fmt;
use verdict::sentences::Sentence as FormatSentence;

/// What is wrong with the file, in words.
#[derive(Clone, Copy)]
pub(crate) struct Sentence<'a>(pub(crate) &'a Refusal);

impl fmt::Display for Sentence<'_> {
    fn fmt<W: fmt::Write>(&self, f: &mut fmt::Formatter<W>) -> fmt::Result {
        match self.0 {
            Refusal::Malformed(refusal) => FormatSentence(refusal).fmt(f),
            Refusal::Invalid(invalid) => f.write_str(faults::sentence(invalid.fault)),
        }
    }
}
