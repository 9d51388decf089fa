// The reader: it keeps its place in the file's bytes and gives the fields one by one.
ghost use Rattle.std.specs.Prelude.{◌≡◌, ◌+◌, [], ◌∷◌, ◌++◌, OnOk};
ghost use Rattle.chart.specs.Files.{Sized};
ghost use Rattle.chart.specs.Limits.{raised};
ghost use Rattle.chart.specs.Progress.{before, or_beyond, Position, FieldAt, Next};
ghost use Rattle.chart.specs.Reading.{judge as judged};
ghost use Rattle.chart.specs.Stages.{admits, after as follows};
ghost use Rattle.chart.specs.Stated.{stated, stated_by};

use crate::contents::decode;
use crate::fields::{Field, Placed};
use crate::kinds::Tag;
use crate::limits::Counts;
use crate::order::Stage;
use crate::pieces::{Piece, check_size, cut};
use crate::refusals::Refusal;

/// A reader of a file's fields. What lies in front of its place `at` is a row of fields in order, well formed and within the limits;
/// stage and counts are those behind that row.
#[derive(Drop)]
pub struct Reader<'a> {
    bytes: &'a [u8],
    at: usize,
    stage: Stage,
    counts: Counts,
    ghost position: { Position bytes.now at stage counts },
}

impl<'a> Reader<'a> {
    /// A reader at the start of the file.
    pub fn new(bytes: &'a [u8]) -> Reader<'a>
        ensures { (result.bytes.now ≡ bytes.now) × (result.at ≡ 0) }
    {
        Reader {
            bytes,
            at: 0,
            stage: Stage::Signals,
            counts: Counts::default(),
        }
    }

    /// The next field with its place, or none at the end of the file; a refusal leaves the reader where it is.
    // A method and no iterator: an iterator would give the same refusal without end.
    pub fn next(&mut self) -> Result<Option<Placed<'a>>, Refusal>
        ensures same { self.new.bytes.now ≡ self.old.bytes.now }
        ensures next { Next self.old.bytes.now self.old.at result self.new.at }
        ensures sized { OnOk result (Sized self.old.bytes.now) }
    {
        check_size(self.bytes)?;
        let place = self.at;
        let rest = &self.bytes[place..];
        if rest.is_empty() {
            return Ok(None);
        }
        let piece = cut(rest, place)?;
        let field = self.judge(piece)?;
        let counts = self.counts_with(&field)?;
        Ok(Some(self.pass(field, piece.contents.len(), counts)))
    }

    /// The field that the piece here is, if one with its tag may stand here.
    fn judge(&self, piece: Piece<'a>) -> Result<Field<'a>, Refusal>
        ensures { stated_by result ≡ judged (admits self.now.stage) self.now.at piece.entry.code piece.entry.contents.now }
    {
        let place = self.at;
        let tag = Tag::try_from(piece.code).map_err(|unknown| Refusal::UnknownTag {
            place,
            code: unknown.0,
        })?;
        if !self.stage.admits(tag) {
            return Err(Refusal::OutOfOrder { place, tag });
        }
        decode(tag, piece.contents).map_err(|part| Refusal::NotAllowed { place, tag, part })
    }

    /// The counts with the field that stands here too.
    fn counts_with(&self, field: &Field<'_>) -> Result<Counts, Refusal>
        ensures { result ≡ or_beyond self.now.at (raised self.now.counts (stated field.now)) }
    {
        let place = self.at;
        self.counts
            .with(field)
            .map_err(|limit| Refusal::BeyondLimit { place, limit })
    }

    /// Moves behind the field that stands here, with contents of this length, to these counts.
    fn pass(&mut self, field: Field<'a>, length: usize, counts: Counts) -> Placed<'a>
        requires stands { Position self.old.bytes.now (self.old.at + 3 + length) (follows self.old.stage (stated field)) counts }
        requires row { before self.old.bytes.now (self.old.at + 3 + length) ≡ before self.old.bytes.now self.old.at ++ (stated field ∷ []) }
        ensures same { self.new.bytes.now ≡ self.old.bytes.now }
        ensures next { FieldAt self.old.bytes.now self.old.at result self.new.at }
    {
        let place = self.at;
        self.at = place + 3 + length;
        self.stage = self.stage.after(&field);
        self.counts = counts;
        Placed { place, field }
    }
}
