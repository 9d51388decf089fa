// A field looked up by its byte place.
ghost use Rattle.std.specs.Prelude.{◌≡◌};
ghost use Rattle.chart.specs.Lookup.{field_at, first_field};
ghost use Rattle.chart.specs.Stated.{stated_if};

use crate::contents::decode;
use crate::fields::Field;
use crate::kinds::Tag;
use crate::pieces::cut;

/// The field whose tag is the byte at `place`, if a whole well-formed field stands there.
pub fn field_at(bytes: &[u8], place: usize) -> Option<Field<'_>>
    ensures { stated_if result ≡ field_at bytes.now place }
{
    first_field(bytes.get(place..)?)
}

/// The field in front of `bytes`, if they begin with a whole well-formed one.
fn first_field(bytes: &[u8]) -> Option<Field<'_>>
    ensures { stated_if result ≡ first_field bytes.now }
{
    let piece = cut(bytes, 0).ok()?;
    let tag = Tag::try_from(piece.code).ok()?;
    decode(tag, piece.contents).ok()
}
