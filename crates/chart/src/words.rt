// The words for kinds.
ghost use Rattle.std.specs.Prelude.{◌≡◌, Some};
ghost use Rattle.chart.specs.Words.{signal_word, state_word, transition_word};

use crate::kinds::{SignalKind, StateKind, TransitionKind};
use std::fmt;

// One `word` for each kind: the words are all that it has.
impl SignalKind {
    pub fn word(self) -> &'static str
        ensures { result.now ≡ signal_word self }
    {
        match self {
            SignalKind::Input => "input",
            SignalKind::Output => "output",
            SignalKind::Internal => "internal",
        }
    }
}

impl StateKind {
    pub fn word(self) -> &'static str
        ensures { result.now ≡ state_word self }
    {
        match self {
            StateKind::Simple => "simple",
            StateKind::Final => "final",
            StateKind::Macro => "macro",
        }
    }
}

impl TransitionKind {
    pub fn word(self) -> &'static str
        ensures { result.now ≡ transition_word self }
    {
        match self {
            TransitionKind::Strong => "strong",
            TransitionKind::Weak => "weak",
            TransitionKind::Normal => "normal",
        }
    }
}

// A Display for each: Rust lets no crate write one for all types of a trait.
impl fmt::Display for SignalKind {
    ghost output = { λ kind. Some (signal_word kind) };

    fn fmt<W: fmt::Write>(&self, f: &mut fmt::Formatter<W>) -> fmt::Result {
        f.write_str(self.word())
    }
}

impl fmt::Display for StateKind {
    ghost output = { λ kind. Some (state_word kind) };

    fn fmt<W: fmt::Write>(&self, f: &mut fmt::Formatter<W>) -> fmt::Result {
        f.write_str(self.word())
    }
}

impl fmt::Display for TransitionKind {
    ghost output = { λ kind. Some (transition_word kind) };

    fn fmt<W: fmt::Write>(&self, f: &mut fmt::Formatter<W>) -> fmt::Result {
        f.write_str(self.word())
    }
}
