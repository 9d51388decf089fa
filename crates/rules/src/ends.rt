// The ends of transitions, which stand in one graph, and their order: from a state that is not final, strong ones stand first, then weak ones, then one normal.
// Over a file this costs transitions times transitions.
ghost use Rattle.std.specs.Prelude.{◌≡◌};
ghost use Rattle.validity.specs.Faults.{first_case, in_one_graph, stands_behind, transition_ends, ends_fault};
ghost use Rattle.tables.specs.Views.{fields_of};
ghost use Rattle.rules.specs.Order.{is_from, leaves_by, order_cases};

use crate::rule::Rule;
use crate::site::Site;
use chart::fields::Field;
use chart::kinds::{StateKind, TransitionKind};
use tables::tables::Tables;
use validity::faults::Fault;

// Whether both ends of a transition stand in one graph. The root stands in none.
fn in_one_graph(tables: &Tables, source: u16, target: u16) -> bool
    ensures { result ≡ in_one_graph (fields_of tables.now) source target }
{
    source != 0
        && target != 0
        && tables.graph_of(usize::from(source)) == tables.graph_of(usize::from(target))
}

/// The transitions from a state in front of a number.
#[derive(Clone, Copy)]
pub(crate) struct Earlier<'a> {
    pub tables: &'a Tables,
    pub end: usize,
    pub source: u16,
}

impl Earlier<'_> {
    // Whether the transition leaves the state and is of the kind `first` or of one behind it.
    fn leaves(&self, transition: usize, first: TransitionKind) -> bool
        ensures { result ≡ leaves_by (fields_of self.now.tables.now) self.now.source first transition }
    {
        self.tables.source_of(transition) == self.source
            && self.tables.transition_kind_of(transition) >= first
    }

    /// Whether one of them is of the kind `first` or of one behind it.
    pub(crate) fn has(&self, first: TransitionKind) -> bool
        ensures { result ≡ stands_behind (fields_of self.now.tables.now) self.now.end self.now.source (is_from first) }
    {
        (0..self.end).any(|transition| self.leaves(transition, first))
    }

    // How a transition of the kind behind them stands out of order, if it does.
    fn order_fault(&self, kind: TransitionKind) -> Option<Fault>
        ensures { result ≡ first_case (order_cases (fields_of self.now.tables.now) self.now.end self.now.source kind) }
    {
        let (first, fault) = match kind {
            TransitionKind::Strong => (TransitionKind::Weak, Fault::StrongAfterWeaker),
            TransitionKind::Weak => (TransitionKind::Normal, Fault::WeakAfterNormal),
            TransitionKind::Normal => (TransitionKind::Normal, Fault::SecondNormal),
        };
        self.has(first).then_some(fault)
    }

    // Of the transition from the state that stands behind them.
    fn transition_fault(&self, target: u16, kind: TransitionKind) -> Option<Fault>
        ensures { result ≡ first_case (transition_ends (fields_of self.now.tables.now) self.now.end self.now.source target kind) }
    {
        if !in_one_graph(self.tables, self.source, target) {
            Some(Fault::AcrossGraphs)
        } else if matches!(
            self.tables.kind_of(usize::from(self.source)),
            StateKind::Final
        ) {
            Some(Fault::FromFinal)
        } else {
            self.order_fault(kind)
        }
    }
}

/// The rule on the ends of transitions and their order.
#[derive(Clone, Copy)]
pub(crate) struct Ends;

impl Rule for Ends {
    ghost breaks = { λ _. ends_fault };

    fn fault(&self, site: &Site<'_>) -> Option<Fault> {
        match site.field {
            Field::Transition {
                source,
                target,
                kind,
                ..
            } => {
                let earlier = Earlier {
                    tables: site.tables,
                    end: usize::from(site.entry.transitions),
                    source,
                };
                earlier.transition_fault(target, kind)
            }
            _ => None,
        }
    }
}
