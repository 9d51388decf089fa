// A chart file is copied once it has passed the first layer.
ghost use Rattle.std.specs.Prelude.{◌≡◌, ◌<◌, ◌≤◌, [], length, IfOk, vec_capacity, MatchResult};
ghost use Rattle.chart.specs.Files.{Passes, Refused};
ghost use Rattle.chart.specs.Reading.{row_of};
ghost use Rattle.chart.specs.Stated.{stated};
ghost use Rattle.tables.specs.Entries.{Entered, counted};

use crate::file::{ChartFile, MOST_BYTES, MOST_FIELDS};
use crate::rows::Entry;
use chart::fields::Field;
use chart::reader::Reader;
use chart::refusals::Refusal;
use std::alloc::{AllocError, Global};

impl ChartFile {
    /// No byte, with room for every file.
    pub fn new(heap: Global) -> Result<ChartFile, AllocError>
        ensures { IfOk result (λ f. f.bytes.items ≡ []) }
    {
        let bytes = Vec::with_capacity(heap, MOST_BYTES)?;
        let entries = Vec::with_capacity(heap, MOST_FIELDS)?;
        Ok(ChartFile { bytes, entries })
    }

    /// No byte.
    pub fn clear(&mut self)
        ensures { self.new.bytes.items ≡ [] }
    {
        self.bytes.clear();
        self.entries.clear();
    }

    /// Copies a file that passes the first layer; of any other it says why it is refused, and holds no byte.
    pub fn read(&mut self, bytes: &[u8]) -> Result<(), Refusal>
        ensures { MatchResult result (λ _. Passes bytes.now (row_of bytes.now) × (self.new.bytes.items ≡ bytes.now)) (λ e. Refused bytes.now e × (self.new.bytes.items ≡ [])) }
    {
        match enter(bytes, &mut self.entries) {
            Ok(()) => {
                copy(bytes, &mut self.bytes);
                Ok(())
            }
            // No `?` here: the entries of a refused file are cleared first.
            Err(refusal) => {
                self.bytes.clear();
                self.entries.clear();
                Err(refusal)
            }
        }
    }
}

// An entry for each field of the file, or why it is refused.
fn enter(bytes: &[u8], entries: &mut Vec<Entry>) -> Result<(), Refusal>
    requires { MOST_FIELDS ≤ vec_capacity entries.old }
    ensures room { MOST_FIELDS ≤ vec_capacity entries.new }
    ensures cases { MatchResult result (λ _. Passes bytes.now (row_of bytes.now) × Entered (row_of bytes.now) entries.new.items) (λ e. Refused bytes.now e) }
{
    entries.clear();
    let mut reader = Reader::new(bytes);
    let mut next = Entry::default();
    while let Some(placed) = reader.next()? {
        // A file has at most 16,384 bytes, so nothing is lost.
        next.place = placed.place as u16;
        entries.push_reserved(next);
        next = next.after(&placed.field);
    }
    Ok(())
}

impl Entry {
    // The entry of the next field, but for its place.
    fn after(mut self, field: &Field<'_>) -> Entry
        requires { (self.states < 65535) × (self.graphs < 65535) × (self.transitions < 65535) × (self.suspensions < 65535) }
        ensures { result ≡ counted self (stated field.now) }
    {
        match field {
            Field::State { .. } => self.states += 1,
            Field::Graph { .. } => self.graphs += 1,
            Field::Transition { .. } => self.transitions += 1,
            Field::Suspension { .. } => self.suspensions += 1,
            _ => {}
        }
        self
    }
}

// The copy of a file that there is room for.
fn copy(bytes: &[u8], into: &mut Vec<u8>)
    requires { length bytes.now ≤ vec_capacity into.old }
    ensures { (into.new.items ≡ bytes.now) × (vec_capacity into.old ≤ vec_capacity into.new) }
{
    into.clear();
    into.extend_from_slice(bytes).unwrap();
}
