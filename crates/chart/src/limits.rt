// How many signals, inputs, states, graphs and transitions a file may have.
ghost use Rattle.std.specs.Prelude.{◌≡◌, ◌+◌, if◌then◌else◌, None, Ok, Err, nat_lt};
ghost use Rattle.chart.specs.Limits.{most_of, exceeded, raised};
ghost use Rattle.chart.specs.Stated.{stated};

use crate::fields::Field;
use crate::kinds::SignalKind;
use crate::refusals::Limit;

impl Limit {
    /// A file has no more of them.
    pub fn most(self) -> u16
        ensures { result ≡ most_of self }
    {
        match self {
            Limit::Signals => 128,
            Limit::Inputs => 64,
            Limit::States => 256,
            Limit::Graphs => 128,
            Limit::Transitions => 512,
        }
    }

    /// One more than `count`, unless that is beyond the limit.
    fn one_more(self, count: u16) -> Result<u16, Limit>
        ensures { result ≡ (if nat_lt count (most_of self) then Ok (count + 1) else Err self) }
    {
        if count < self.most() {
            Ok(count + 1)
        } else {
            Err(self)
        }
    }
}

/// How many of each limited thing there are. Inputs are signals too.
#[derive(Clone, Copy, Default)]
pub(crate) struct Counts {
    signals: u16,
    inputs: u16,
    states: u16,
    graphs: u16,
    transitions: u16,
}

impl Counts {
    /// The counts with this field too, or the first limit that it would pass.
    pub(crate) fn with(mut self, field: &Field<'_>) -> Result<Counts, Limit>
        requires { exceeded self ≡ None }
        ensures { result ≡ raised self (stated field.now) }
    {
        match field {
            Field::Signal { kind, .. } => {
                self.signals = Limit::Signals.one_more(self.signals)?;
                if *kind == SignalKind::Input {
                    self.inputs = Limit::Inputs.one_more(self.inputs)?;
                }
            }
            Field::State { .. } => self.states = Limit::States.one_more(self.states)?,
            Field::Graph { .. } => self.graphs = Limit::Graphs.one_more(self.graphs)?,
            Field::Transition { .. } => {
                self.transitions = Limit::Transitions.one_more(self.transitions)?
            }
            Field::Suspension { .. } | Field::Trigger { .. } | Field::Effects { .. } => {}
        }
        Ok(self)
    }
}
