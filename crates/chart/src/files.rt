// A whole file: all its fields, or why it is refused.
ghost use Rattle.std.specs.Prelude.{◌≡◌, [], vec_capacity, alloc_error, MatchResult};
ghost use Rattle.chart.specs.Listing.{Listed, Why};
ghost use Rattle.chart.specs.declared.files.ReadError.TheVariants.{Memory, Refused as ByRefusal};

use crate::fields::Placed;
use crate::reader::Reader;
use crate::refusals::Refusal;
use std::alloc::{AllocError, AllocFailed};

/// Why there are no fields: the file is refused, or there was no memory to hold them.
#[derive(Clone, Copy)]
pub enum ReadError {
    Refused(Refusal),
    Memory(AllocError),
}

impl From<Refusal> for ReadError {
    ghost from_gives = { λ x r. r ≡ ByRefusal x };

    fn from(refusal: Refusal) -> ReadError {
        ReadError::Refused(refusal)
    }
}

impl<T: Drop> From<AllocFailed<T>> for ReadError {
    ghost from_gives = { λ _ r. r ≡ Memory alloc_error };

    fn from(refused: AllocFailed<T>) -> ReadError {
        ReadError::Memory(AllocError::from(refused))
    }
}

/// Fills `fields` with all fields of the file and their places, in file order; after a refusal, or for want of memory, it is empty.
/// A vector with room for a third as many fields as the file has bytes is never short of memory.
pub fn read_fields<'a>(bytes: &'a [u8], fields: &mut Vec<Placed<'a>>) -> Result<(), ReadError>
    ensures { MatchResult result (λ _. Listed bytes.now fields.new.items) (λ e. Why bytes.now (vec_capacity fields.old) e × (fields.new.items ≡ [])) }
{
    fields.clear();
    let gathered = gather(bytes, fields);
    if gathered.is_err() {
        fields.clear();
    }
    gathered
}

fn gather<'a>(bytes: &'a [u8], fields: &mut Vec<Placed<'a>>) -> Result<(), ReadError>
    requires { fields.old.items ≡ [] }
    ensures { MatchResult result (λ _. Listed bytes.now fields.new.items) (λ e. Why bytes.now (vec_capacity fields.old) e) }
{
    let mut reader = Reader::new(bytes);
    while let Some(placed) = reader.next()? {
        fields.push(placed)?;
    }
    Ok(())
}
