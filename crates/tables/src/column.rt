// The rows of one kind.
ghost use Rattle.std.specs.Prelude.{◌≡◌, ◌≤◌, [], IfOk, vec_len, vec_capacity, slice_index_or};
ghost use Rattle.tables.specs.Columns.{RowsOf};
ghost use Rattle.tables.specs.Copied.{fields_in};

use crate::file::ChartFile;
use crate::parts::Part;
use std::alloc::{AllocError, Global};

/// The rows of one kind, in file order. There is room for those of every file.
#[derive(Drop)]
pub(crate) struct Column<P: Part> {
    rows: Vec<P>,
    ghost room: { P.MOST ≤ vec_capacity rows },
}

impl<P: Part> Column<P> {
    // No row, with room for those of every file.
    pub(crate) fn new(heap: Global) -> Result<Column<P>, AllocError>
        ensures { IfOk result (λ c. c.rows.items ≡ []) }
    {
        Ok(Column {
            rows: Vec::with_capacity(heap, P::MOST)?,
        })
    }

    // No row.
    pub(crate) fn clear(&mut self)
        ensures { self.new.rows.items ≡ [] }
    {
        self.rows.clear();
    }

    // A row for each field that makes one.
    pub(crate) fn fill(&mut self, file: &ChartFile)
        ensures { RowsOf P.makes (P.Part.row (fields_in file.now)) (fields_in file.now) self.new.rows.items }
    {
        self.rows.clear();
        // A loop that pushes: `extend` does not promise to succeed where there is room.
        for field in file.fields() {
            if let Some(row) = P::of(&field) {
                self.rows.push_reserved(row);
            }
        }
    }

    pub(crate) fn len(&self) -> usize
        ensures { result ≡ vec_len self.now.rows }
    {
        self.rows.len()
    }

    pub(crate) fn as_slice(&self) -> &[P]
        ensures { result.now ≡ self.now.rows.items }
    {
        self.rows.as_slice()
    }

    // The row with this number; of a number that nothing has, the row of zeros.
    pub(crate) fn row(&self, number: usize) -> P
        ensures { result ≡ slice_index_or self.now.rows.items number P.ZEROS }
    {
        self.rows.get(number).copied().unwrap_or(P::ZEROS)
    }
}
