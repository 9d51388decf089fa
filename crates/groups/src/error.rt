// Why numbers were not grouped.
ghost use Rattle.std.specs.Prelude.{◌≡◌};
ghost use Rattle.groups.specs.declared.error.FillError.TheVariants.{Memory};

use std::alloc::AllocError;

/// Why numbers were not grouped.
#[derive(Clone, Copy, Debug, PartialEq, Eq)]
pub enum FillError {
    /// There are more than 65,535 numbers.
    TooMany,
    /// There is neither room for the groups nor memory to make it.
    Memory(AllocError),
}

impl From<AllocError> for FillError {
    ghost from_gives = { λ error result. result ≡ Memory error };

    fn from(error: AllocError) -> FillError {
        FillError::Memory(error)
    }
}
