// The theorems on valid charts.
ghost use Rattle.validity.specs.Laws.{ValidityLaws};

/// A chart is loaded exactly if no field has a fault; what is loaded nests, can be walked and has no ring of chain transitions.
pub fn validity_laws()
    ensures { ValidityLaws }
{}
