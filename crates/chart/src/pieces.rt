// The pieces that a file is cut into: a tag, a length and contents.
ghost use Rattle.chart.specs.Pieces.{Cut, SizeChecked};

use crate::numbers::word;
use crate::refusals::Refusal;

/// The longest file, in bytes.
const LONGEST: usize = 16_384;

/// A field's tag and contents, not yet looked into.
#[derive(Clone, Copy)]
pub(crate) struct Piece<'a> {
    pub(crate) code: u8,
    pub(crate) contents: &'a [u8],
}

/// A file has 1 to 16,384 bytes.
pub(crate) fn check_size(bytes: &[u8]) -> Result<(), Refusal>
    ensures { SizeChecked bytes.now result }
{
    match bytes.len() {
        0 => Err(Refusal::Empty),
        length if length > LONGEST => Err(Refusal::TooLong { length }),
        _ => Ok(()),
    }
}

/// The piece in front of `bytes`, which stand at `place`.
pub(crate) fn cut(bytes: &[u8], place: usize) -> Result<Piece<'_>, Refusal>
    ensures { Cut bytes.now place result }
{
    let [tag, high, low, rest @ ..] = bytes else {
        return Err(Refusal::CutShort { place });
    };
    let size = usize::from(word(*high, *low));
    let contents = rest.get(..size).ok_or(Refusal::CutShort { place })?;
    Ok(Piece {
        code: *tag,
        contents,
    })
}
