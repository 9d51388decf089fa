// What a rule is, and the first field that breaks it.
ghost use Rattle.std.specs.Prelude.{◌≡◌, ℕ, ◌<◌, List, length, Option as Maybe};
ghost use Rattle.chart.specs.Fields.{Field as AnyField, place_at};
ghost use Rattle.validity.specs.declared.faults.Fault.{Fault as AnyFault};
ghost use Rattle.validity.specs.Outcome.{located, unless};
ghost use Rattle.validity.specs.Ranges.{first_of};
ghost use Rattle.tables.specs.Views.{fields_of};

use crate::site::Site;
use tables::tables::Tables;
use validity::faults::{Fault, Invalid};

/// A rule that each field keeps or breaks.
// A trait: `breaks` says once what a rule means. A closure's meaning would have to be asked for at each call.
pub(crate) trait Rule {
    /// How the field at an index breaks it, if it does.
    ghost breaks: { Self → List AnyField → ℕ → Maybe AnyFault };

    fn fault(&self, site: &Site<'_>) -> Option<Fault>
        ensures { result ≡ breaks self.now (fields_of site.now.tables.now) site.now.index };
}

/// Whether each field keeps the rule; else the first that breaks it.
pub(crate) fn check_fields<R: Rule>(rule: &R, tables: &Tables) -> Result<(), Invalid>
    ensures { result ≡ unless (first_of (length (fields_of tables.now)) (λ i. located (place_at (fields_of tables.now) i) (R.breaks rule.now (fields_of tables.now) i))) }
{
    first_invalid(rule, tables).map_or(Ok(()), Err)
}

// The first field that breaks the rule.
fn first_invalid<R: Rule>(rule: &R, tables: &Tables) -> Option<Invalid>
    ensures { result ≡ first_of (length (fields_of tables.now)) (λ i. located (place_at (fields_of tables.now) i) (R.breaks rule.now (fields_of tables.now) i)) }
{
    (0..tables.file().field_count()).find_map(|index| invalid_at(rule, tables, index))
}

// How the field with this index breaks the rule, and where it stands.
fn invalid_at<R: Rule>(rule: &R, tables: &Tables, index: usize) -> Option<Invalid>
    ensures { index < length (fields_of tables.now) → result ≡ located (place_at (fields_of tables.now) index) (R.breaks rule.now (fields_of tables.now) index) }
{
    let site = Site::at(tables, index)?;
    let fault = rule.fault(&site)?;
    Some(Invalid {
        place: usize::from(site.entry.place),
        fault,
    })
}
