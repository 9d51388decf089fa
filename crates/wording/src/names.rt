// The names of signals and states as text.
ghost use Rattle.std.specs.Prelude.{◌≡◌, Some, IsUtf8};
ghost use Rattle.tables.specs.Rows.{signal_name_of, state_name_of};
ghost use Rattle.tables.specs.Views.{fields_of};
ghost use Rattle.wording.specs.Shown.{signal_shown, state_shown};

use std::fmt;
use std::str::from_utf8;
use tables::tables::Tables;

/// The signal's name; empty if no signal has the number.
pub fn signal_name(tables: &Tables, signal: usize) -> &str
    ensures { result.now ≡ signal_name_of (fields_of tables.now) signal }
{
    text(tables.signal_name(signal))
}

/// The state's name; empty if no state has the number.
pub fn state_name(tables: &Tables, state: usize) -> &str
    ensures { result.now ≡ state_name_of (fields_of tables.now) state }
{
    text(tables.state_name(state))
}

// Of bytes that are no text, nothing.
fn text(bytes: &[u8]) -> &str
    ensures { IsUtf8 bytes.now → result.now ≡ bytes.now }
{
    from_utf8(bytes).unwrap_or("")
}

// Two types: they show differently, also where nothing has the number.

/// A signal that is referred to by its number: its name, or `?7` if no signal has the number.
#[derive(Clone, Copy)]
pub struct SignalName<'a> {
    pub tables: &'a Tables,
    pub number: usize,
}

impl<'a> SignalName<'a> {
    pub(crate) fn of(tables: &'a Tables, signal: u8) -> SignalName<'a>
        ensures tables { result.tables.now ≡ tables.now }
        ensures number { result.number ≡ signal }
    {
        let number = usize::from(signal);
        SignalName { tables, number }
    }
}

impl fmt::Display for SignalName<'_> {
    ghost output = { λ s. Some (signal_shown (fields_of s.tables.now) s.number) };

    fn fmt<W: fmt::Write>(&self, f: &mut fmt::Formatter<W>) -> fmt::Result {
        let number = self.number;
        if number < self.tables.signal_count() {
            f.write_str(signal_name(self.tables, number))
        } else {
            write!(f, "?{number}")
        }
    }
}

/// A state that is referred to by its number: `7 name`, or `7 ?` if no state has the number.
#[derive(Clone, Copy)]
pub struct StateName<'a> {
    pub tables: &'a Tables,
    pub number: usize,
}

impl<'a> StateName<'a> {
    pub(crate) fn of(tables: &'a Tables, state: u16) -> StateName<'a>
        ensures tables { result.tables.now ≡ tables.now }
        ensures number { result.number ≡ state }
    {
        let number = usize::from(state);
        StateName { tables, number }
    }
}

impl fmt::Display for StateName<'_> {
    ghost output = { λ s. Some (state_shown (fields_of s.tables.now) s.number) };

    fn fmt<W: fmt::Write>(&self, f: &mut fmt::Formatter<W>) -> fmt::Result {
        let number = self.number;
        if number < self.tables.state_count() {
            let name = state_name(self.tables, number);
            write!(f, "{number} {name}")
        } else {
            write!(f, "{number} ?")
        }
    }
}
