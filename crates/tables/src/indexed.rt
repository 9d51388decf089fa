// A field of a chart file with its index, and where its bytes stand.
ghost use Rattle.std.specs.Prelude.{◌≡◌, ◌+◌, ◌-◌, ◌<◌, ◌≤◌, false, length, MatchOption};
ghost use Rattle.std.specs.Iterator.{at_most};
ghost use Rattle.chart.specs.Fields.{graph, is, place_at};
ghost use Rattle.chart.specs.Stated.{stated};
ghost use Rattle.validity.specs.Parts.{at as field_at, bytes_in};
ghost use Rattle.tables.specs.Rows.{span_at, tagged_span_at};
ghost use Rattle.tables.specs.Copied.{fields_in};

use crate::file::ChartFile;
use crate::rows::Span;
use chart::fields::Field;
use chart::kinds::Tag;

/// A field of a chart file, and its index there.
#[derive(Clone, Copy)]
pub(crate) struct Indexed<'a> {
    file: &'a ChartFile,
    index: usize,
    pub(crate) field: Field<'a>,
    ghost inside: { index < length (fields_in file.now) },
    ghost same: { stated field ≡ field_at (fields_in file.now) index },
}

impl ChartFile {
    // The field with this index.
    pub(crate) fn indexed(&self, index: usize) -> Option<Indexed<'_>>
        ensures { MatchOption result (length (fields_in self.now) ≤ index) (λ f. (f.file.now ≡ self.now) × (f.index ≡ index)) }
    {
        let field = self.field(index)?;
        Some(Indexed {
            file: self,
            index,
            field,
        })
    }
}

/// The fields of a chart file, from an index on.
#[derive(Drop)]
pub(crate) struct Fields<'a> {
    file: &'a ChartFile,
    index: usize,
}

impl ChartFile {
    // All fields.
    pub(crate) fn fields(&self) -> Fields<'_>
        ensures { (result.file.now ≡ self.now) × (result.index ≡ 0) }
    {
        Fields {
            file: self,
            index: 0,
        }
    }
}

impl<'a> Iterator for Fields<'a> {
    type Item = Indexed<'a>;

    ghost next_gives = { λ s r t. (t.file.now ≡ s.file.now) × MatchOption r (length (fields_in s.file.now) ≤ s.index) (λ f. (f.file.now ≡ s.file.now) × (f.index ≡ s.index) × (t.index ≡ s.index + 1)) };

    ghost remaining = { λ s. at_most (length (fields_in s.file.now) - s.index) };

    fn next(&mut self) -> Option<Indexed<'a>> {
        let field = self.file.indexed(self.index)?;
        self.index += 1;
        Some(field)
    }
}

impl Indexed<'_> {
    // The name of the field, its postfix or its signals.
    fn bytes(&self) -> &[u8]
        ensures { result.now ≡ bytes_in (stated self.now.field) }
    {
        match self.field {
            Field::Signal { name, .. } | Field::State { name, .. } => name,
            Field::Trigger { postfix } => postfix,
            Field::Effects { signals } => signals,
            _ => &[],
        }
    }

    fn place(&self) -> u16
        ensures { (result ≡ place_at (fields_in self.now.file.now) self.now.index) × (result ≤ 16384) }
    {
        self.file.entry(self.index).unwrap().place
    }

    // Where the bytes of the field stand, so many behind its tag.
    pub(crate) fn span(&self, offset: u16) -> Span
        requires { offset ≤ 6 }
        ensures { result ≡ span_at (fields_in self.now.file.now) offset self.now.index }
    {
        Span {
            start: self.place() + offset,
            // A file has at most 16,384 bytes, so nothing is lost.
            length: self.bytes().len() as u16,
        }
    }

    // Where the bytes of a trigger or of effects stand, if the field has this tag.
    fn tagged_span(&self, tag: Tag) -> Option<Span>
        ensures { result ≡ tagged_span_at (fields_in self.now.file.now) tag self.now.index }
    {
        // No `then`: of a closure that borrows this field the check learns nothing.
        if self.field.tag() == tag {
            Some(self.span(3))
        } else {
            None
        }
    }

    // The same of the field so many behind. Where there is none, definitions see a graph.
    pub(crate) fn behind(&self, distance: usize, tag: Tag) -> Option<Span>
        requires near { distance ≤ 2 }
        requires no_graph { is tag (graph 0) ≡ false }
        ensures { result ≡ tagged_span_at (fields_in self.now.file.now) tag (self.now.index + distance) }
    {
        self.file.indexed(self.index + distance)?.tagged_span(tag)
    }
}
