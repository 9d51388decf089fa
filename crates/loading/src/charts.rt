// A chart: the tables of a valid chart file, or of none, with what is derived from them.
ghost use Rattle.std.specs.Prelude.{◌≡◌, true};
ghost use Rattle.chart.specs.Reading.{row_of};
ghost use Rattle.loading.specs.Derives.{Derives};
ghost use Rattle.loading.specs.Kept.{may_keep};

use derived::Derived;
use tables::tables::Tables;

mod access;
mod loads;
mod orders;

/// A chart that is loaded, or empty. There is room for every chart.
#[derive(Drop)]
pub struct Chart {
    tables: Tables,
    derived: Derived,
    ghost valid: { may_keep tables.file.bytes.items ≡ true },
    ghost derives: { Derives (row_of tables.file.bytes.items) derived },
}
