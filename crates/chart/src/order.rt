// What may follow what: signals; then states and graphs; then transitions and suspensions. A trigger or effects stand directly behind what they belong to.
ghost use Rattle.std.specs.Prelude.{◌≡◌};
ghost use Rattle.chart.specs.Stages.{admits as admitted, after as follows};
ghost use Rattle.chart.specs.Stated.{stated};

use crate::fields::Field;
use crate::kinds::{StateKind, Tag};

/// What the next field may be.
#[derive(Clone, Copy)]
pub(crate) enum Stage {
    /// Nothing but signals so far.
    Signals,
    /// Behind a simple state.
    SimpleState,
    /// Among states and graphs, behind what takes no effects.
    Structure,
    /// Behind a transition.
    Transition,
    /// Behind a transition's trigger.
    TransitionTrigger,
    /// Behind a suspension.
    Suspension,
    /// Among transitions and suspensions, behind what takes neither trigger nor effects.
    Behaviour,
}

impl Stage {
    /// Whether a field with this tag may stand here.
    pub(crate) fn admits(self, tag: Tag) -> bool
        ensures { result ≡ admitted self tag }
    {
        match tag {
            Tag::Signal => matches!(self, Stage::Signals),
            Tag::State | Tag::Graph => matches!(
                self,
                Stage::Signals | Stage::SimpleState | Stage::Structure
            ),
            Tag::Transition | Tag::Suspension => true,
            Tag::Trigger => matches!(self, Stage::Transition | Stage::Suspension),
            Tag::Effects => matches!(
                self,
                Stage::SimpleState | Stage::Transition | Stage::TransitionTrigger
            ),
        }
    }

    /// The stage behind this field, which stands at this stage.
    pub(crate) fn after(self, field: &Field<'_>) -> Stage
        ensures { result ≡ follows self (stated field.now) }
    {
        match field {
            Field::Signal { .. } => Stage::Signals,
            Field::State {
                kind: StateKind::Simple,
                ..
            } => Stage::SimpleState,
            Field::State { .. } | Field::Graph { .. } => Stage::Structure,
            Field::Transition { .. } => Stage::Transition,
            Field::Suspension { .. } => Stage::Suspension,
            Field::Trigger { .. } => match self {
                Stage::Transition => Stage::TransitionTrigger,
                _ => Stage::Behaviour,
            },
            Field::Effects { .. } => match self {
                Stage::SimpleState => Stage::Structure,
                _ => Stage::Behaviour,
            },
        }
    }
}
