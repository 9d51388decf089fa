// Names of signals and states.
ghost use Rattle.std.specs.Prelude.{◌≡◌};
ghost use Rattle.chart.specs.WellFormed.{is_name, is_name_byte};

pub(crate) const LONGEST_NAME: usize = 16;

/// A letter, a digit or an underscore.
fn is_name_byte(byte: u8) -> bool
    ensures { result ≡ is_name_byte byte }
{
    byte.is_ascii_alphanumeric() || byte == b'_'
}

/// 1 to 16 letters, digits and underscores, no digit first.
pub(crate) fn is_name(name: &[u8]) -> bool
    ensures { result ≡ is_name name.now }
{
    let [first, ..] = name else {
        return false;
    };
    if name.len() > LONGEST_NAME || first.is_ascii_digit() {
        return false;
    }
    name.iter().all(|byte| is_name_byte(*byte))
}
