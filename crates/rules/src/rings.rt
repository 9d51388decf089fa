// The rule on rings: chain transitions lead from no state back to it.
ghost use Rattle.closure.specs.Rows.{told};
ghost use Rattle.chains.specs.Marks.{marked};
ghost use Rattle.rules.specs.Ringed.{ring_by};

use crate::rule::Rule;
use crate::site::Site;
use chains::Chains;
use chart::fields::Field;
use validity::faults::Fault;

// The chain transitions must be on no ring.
impl Rule for Chains {
    ghost breaks = { λ c fs. ring_by fs (marked c) (told c.reach) };

    fn fault(&self, site: &Site<'_>) -> Option<Fault> {
        match site.field {
            Field::Transition { source, target, .. } => {
                let is_on_ring = self.is_chain(usize::from(site.entry.transitions))
                    && (target == source || self.leads(usize::from(target), usize::from(source)));
                is_on_ring.then_some(Fault::OnRing)
            }
            _ => None,
        }
    }
}
