// The section on transitions.
ghost use Rattle.std.specs.Prelude.{◌≡◌, ◌≤◌, ◌==◌, length, sum_by, if◌then◌else◌};

use crate::effects::Effects;
use crate::names::StateName;
use crate::triggers::Condition;
use std::fmt;
use tables::rows::Transition;
use tables::tables::Tables;

// A trait and no closure: to display asks nothing of the caller, a call of a closure would.
/// What a listing tells of transitions that the tables don't.
pub trait Marks {
    /// What stands behind the kind of the transition with this number.
    fn mark(&self, transition: usize) -> &'static str;
}

/// A line for each transition.
#[derive(Drop)]
pub struct Transitions<'a, M: Marks + Drop> {
    pub tables: &'a Tables,
    pub marks: M,
}

impl<M: Marks + Drop> fmt::Display for Transitions<'_, M> {
    fn fmt<W: fmt::Write>(&self, f: &mut fmt::Formatter<W>) -> fmt::Result {
        let tables = self.tables;
        let transitions = tables.transitions();
        for (number, transition) in transitions.iter().enumerate() {
            let line = Line {
                tables,
                number,
                priority: count_from(&transitions[..=number], transition.source),
                transition,
                mark: self.marks.mark(number),
            };
            write!(f, "{line}\n")?;
        }
        Ok(())
    }
}

/// How many of the transitions have this source.
fn count_from(transitions: &[Transition], source: u16) -> usize
    ensures count { result ≡ sum_by (λ t. if t.source == source then 1 else 0) transitions.now }
    ensures bound { result ≤ length transitions.now }
{
    transitions
        .iter()
        .map(|transition| usize::from(transition.source == source))
        .sum()
}

/// A transition: its kind, where it leads from and to, when it is taken and what it emits.
#[derive(Clone, Copy)]
struct Line<'a> {
    tables: &'a Tables,
    number: usize,
    /// Its place among the transitions of its source, from 1 on.
    priority: usize,
    transition: &'a Transition,
    mark: &'static str,
}

impl fmt::Display for Line<'_> {
    fn fmt<W: fmt::Write>(&self, f: &mut fmt::Formatter<W>) -> fmt::Result {
        let Line {
            tables,
            number,
            priority,
            transition,
            mark,
        } = *self;
        let kind = transition.kind;
        let immediate = if transition.immediate {
            " immediate"
        } else {
            ""
        };
        let source = StateName::of(tables, transition.source);
        let target = StateName::of(tables, transition.target);
        let trigger = tables.trigger_of(number);
        let condition = Condition { tables, trigger };
        let signals = tables.emitted_by(number);
        let effects = Effects { tables, signals };
        write!(
            f,
            "  {number} priority {priority} {kind}{immediate}{mark}: {source} -> {target}{condition}{effects}"
        )
    }
}
