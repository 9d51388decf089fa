// The theorems on the chart file's format.
ghost use Rattle.chart.specs.Laws.{FormatLaws, LookupLaws};

/// Every file passes with just one row of fields, or is refused for just one reason.
pub fn format_laws()
    ensures { FormatLaws }
{}

/// The field at the place of a field of a file that passes is that field.
pub fn lookup_laws()
    ensures { LookupLaws }
{}
