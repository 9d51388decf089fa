// Normal transitions, which leave macrostates that can end, and suspensions.
// Over a file that keeps the rule on ends, up to the first fault, this costs states times graphs, states times transitions and states times states:
// a graph's states are looked at for its owner only, a state has at most one normal transition, and of as many suspensions as states and one more, two are of one state.
ghost use Rattle.std.specs.Prelude.{◌≡◌};
ghost use Rattle.chart.specs.Stated.{stated_if};
ghost use Rattle.validity.specs.Faults.{first_case, has_normal, is_suspended_before, is_triggered, state_leaving, transition_leaving, suspension_leaving, leaving_fault};
ghost use Rattle.tables.specs.Views.{fields_of};
ghost use Rattle.rules.specs.Following.{is_trigger_if};

use crate::ending::can_end;
use crate::ends::Earlier;
use crate::rule::Rule;
use crate::site::Site;
use chart::fields::Field;
use chart::kinds::{StateKind, TransitionKind};
use tables::tables::Tables;
use validity::faults::Fault;

// Whether a normal transition leaves the state: all stand in front of the number behind the last.
fn has_normal(tables: &Tables, state: u16) -> bool
    ensures { result ≡ has_normal (fields_of tables.now) state }
{
    let all = Earlier {
        tables,
        end: tables.transition_count(),
        source: state,
    };
    all.has(TransitionKind::Normal)
}

// Whether of the suspensions in front of this one, one is of the state.
fn is_suspended_before(tables: &Tables, suspension: usize, state: u16) -> bool
    ensures { result ≡ is_suspended_before (fields_of tables.now) suspension state }
{
    (0..suspension).any(|other| tables.suspended_by(other) == state)
}

// Whether there is a field, and it is a trigger.
fn is_trigger(field: Option<Field<'_>>) -> bool
    ensures { result ≡ is_trigger_if (stated_if field.entry) }
{
    matches!(field, Some(Field::Trigger { .. }))
}

// Whether a trigger directly follows the field.
fn is_triggered(site: &Site<'_>) -> bool
    ensures { result ≡ is_triggered (fields_of site.now.tables.now) site.now.index }
{
    is_trigger(site.tables.file().field(site.index + 1))
}

// Of the state.
fn state_fault(tables: &Tables, state: u16) -> Option<Fault>
    ensures { result ≡ first_case (state_leaving (fields_of tables.now) state) }
{
    (state != 0 && can_end(tables, state) && !has_normal(tables, state)).then_some(Fault::NoNormal)
}

// Of the transition there.
fn transition_fault(
    site: &Site<'_>,
    source: u16,
    kind: TransitionKind,
    immediate: bool,
) -> Option<Fault>
    ensures { result ≡ first_case (transition_leaving (fields_of site.now.tables.now) site.now.index source kind immediate) }
{
    match kind {
        TransitionKind::Strong | TransitionKind::Weak => None,
        TransitionKind::Normal => {
            if immediate {
                Some(Fault::ImmediateNormal)
            } else if is_triggered(site) {
                Some(Fault::TriggeredNormal)
            } else {
                (!can_end(site.tables, source)).then_some(Fault::FromUnending)
            }
        }
    }
}

// Of the suspension there, which suspends the state.
fn suspension_fault(site: &Site<'_>, suspension: usize, state: u16) -> Option<Fault>
    ensures { result ≡ first_case (suspension_leaving (fields_of site.now.tables.now) site.now.index suspension state) }
{
    if state == 0 {
        Some(Fault::RootSuspended)
    } else if matches!(site.tables.kind_of(usize::from(state)), StateKind::Final) {
        Some(Fault::FinalSuspended)
    } else if is_suspended_before(site.tables, suspension, state) {
        Some(Fault::SecondSuspension)
    } else {
        (!is_triggered(site)).then_some(Fault::UntriggeredSuspension)
    }
}

/// The rule on normal transitions and suspensions.
#[derive(Clone, Copy)]
pub(crate) struct Leaving;

impl Rule for Leaving {
    ghost breaks = { λ _. leaving_fault };

    fn fault(&self, site: &Site<'_>) -> Option<Fault> {
        match site.field {
            Field::State { .. } => state_fault(site.tables, site.entry.states),
            Field::Transition {
                source,
                kind,
                immediate,
                ..
            } => transition_fault(site, source, kind, immediate),
            Field::Suspension { state } => {
                suspension_fault(site, usize::from(site.entry.suspensions), state)
            }
            _ => None,
        }
    }
}
