// A copy of a chart file, and where each of its fields stands.
ghost use Rattle.std.specs.Prelude.{◌≡◌, ◌≤◌, true, vec_len, vec_capacity};
ghost use Rattle.chart.specs.Fields.{encode_all};
ghost use Rattle.chart.specs.Files.{is_row};
ghost use Rattle.chart.specs.Reading.{row_of};
ghost use Rattle.tables.specs.declared.file.TheConstants.{MOST_BYTES, MOST_FIELDS};
ghost use Rattle.tables.specs.Entries.{Entered};

use crate::rows::Entry;

mod access;
mod copying;

const MOST_BYTES: usize = 16_384;

// A field has three bytes at least.
const MOST_FIELDS: usize = 5_461;

/// A file whose fields are in order, well formed and within the limits, with an entry for each; or no byte.
/// There is room for every file.
#[derive(Drop)]
pub struct ChartFile {
    bytes: Vec<u8>,
    entries: Vec<Entry>,
    ghost passed: { encode_all (row_of bytes.items) ≡ bytes.items },
    ghost row: { is_row (row_of bytes.items) ≡ true },
    ghost most: { vec_len bytes ≤ MOST_BYTES },
    ghost entered: { Entered (row_of bytes.items) entries.items },
    ghost byte_room: { MOST_BYTES ≤ vec_capacity bytes },
    ghost entry_room: { MOST_FIELDS ≤ vec_capacity entries },
}
