// The six rules, each over the whole file before the next.
ghost use Rattle.std.specs.Prelude.{◌≡◌, Err, MatchResult};
ghost use Rattle.validity.specs.Outcome.{first_by, rule_at, unless, outcome};
ghost use Rattle.validity.specs.Ranges.{first_of};
ghost use Rattle.tables.specs.Views.{fields_of};
ghost use Rattle.rules.specs.Judged.{Judged};

use crate::ends::Ends;
use crate::leaving::Leaving;
use crate::nesting::Nesting;
use crate::references::References;
use crate::rule::check_fields;
use crate::triggers::Triggers;
use chains::Chains;
use tables::tables::Tables;
use validity::faults::Invalid;

// Whether every field keeps the rules before that on rings; else the first rule that some field breaks, at the first such field.
fn check_before_rings(tables: &Tables) -> Result<(), Invalid>
    ensures { result ≡ unless (first_of 5 (λ k. first_by (fields_of tables.now) (rule_at k))) }
{
    check_fields(&References, tables)?;
    check_fields(&Nesting, tables)?;
    check_fields(&Ends, tables)?;
    check_fields(&Leaving, tables)?;
    check_fields(&Triggers, tables)
}

/// The chain transitions of a valid chart; else the first rule that some field breaks, at the first such field.
pub fn check(tables: &Tables) -> Result<Chains, Invalid>
    ensures { MatchResult result (Judged (fields_of tables.now)) (λ x. outcome (fields_of tables.now) ≡ Err x) }
{
    check_before_rings(tables)?;
    let chains = Chains::of(tables);
    check_fields(&chains, tables)?;
    Ok(chains)
}
