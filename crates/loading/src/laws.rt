// The theorems on loading.
ghost use Rattle.loading.specs.Laws.{LoadingLaws};

/// What is loaded and what is refused is told by format and rules, both ways; what is loaded is sound.
pub fn loading_laws()
    ensures { LoadingLaws }
{}
