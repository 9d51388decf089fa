// The triggers and effects of a chart, as bytes of its file.
ghost use Rattle.std.specs.Prelude.{◌≡◌};
ghost use Rattle.validity.specs.Tables.{trigger_of, emitted_by, sustained_by};
ghost use Rattle.tables.specs.Spans.{spanned, spanned_if, spanned_or, lent_if};
ghost use Rattle.tables.specs.Views.{fields_of};

use crate::rows::Span;
use crate::tables::Tables;

impl Tables {
    /// The bytes of the file that the span tells; none if it ends behind the file.
    pub fn bytes(&self, span: Span) -> &[u8]
        ensures { result.now ≡ spanned self.now.file.bytes.items span }
    {
        let start = usize::from(span.start);
        let end = start + usize::from(span.length);
        self.file.bytes().get(start..end).unwrap_or(&[])
    }

    fn bytes_if(&self, span: Option<Span>) -> Option<&[u8]>
        ensures { lent_if result ≡ spanned_if self.now.file.bytes.items span }
    {
        span.map(|span| self.bytes(span))
    }

    fn bytes_or(&self, span: Option<Span>) -> &[u8]
        ensures { result.now ≡ spanned_or self.now.file.bytes.items span }
    {
        span.map_or(&[], |span| self.bytes(span))
    }

    /// The trigger of the transition in postfix, if it has one.
    pub fn trigger_of(&self, transition: usize) -> Option<&[u8]>
        ensures { lent_if result ≡ trigger_of (fields_of self.now) transition }
    {
        self.bytes_if(self.transition(transition).trigger)
    }

    /// The signals that the transition emits.
    pub fn emitted_by(&self, transition: usize) -> &[u8]
        ensures { result.now ≡ emitted_by (fields_of self.now) transition }
    {
        self.bytes_or(self.transition(transition).effects)
    }

    /// The signals that the state emits while it is active.
    pub fn sustained_by(&self, state: usize) -> &[u8]
        ensures { result.now ≡ sustained_by (fields_of self.now) state }
    {
        self.bytes_or(self.state(state).effects)
    }
}
