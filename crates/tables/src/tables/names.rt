// The names of signals and states, as bytes of the file.
ghost use Rattle.std.specs.Prelude.{◌≡◌};
ghost use Rattle.tables.specs.Rows.{signal_name_of, state_name_of};
ghost use Rattle.tables.specs.Views.{fields_of};

use crate::tables::Tables;

impl Tables {
    pub fn signal_name(&self, signal: usize) -> &[u8]
        ensures { result.now ≡ signal_name_of (fields_of self.now) signal }
    {
        self.bytes(self.signal(signal).name)
    }

    pub fn state_name(&self, state: usize) -> &[u8]
        ensures { result.now ≡ state_name_of (fields_of self.now) state }
    {
        self.bytes(self.state(state).name)
    }
}
