// What the bytes of a trigger mean.
ghost use Rattle.std.specs.Prelude.{◌≡◌};
ghost use Rattle.chart.specs.Postfix.{symbol_from};

/// A signal or an operator of a trigger in postfix: 0 to 127 a signal, 128 and, 129 or, 130 not, 131 yes.
#[derive(Clone, Copy, PartialEq, Eq)]
pub enum Symbol {
    /// A signal by its number.
    Signal(u8),
    And,
    Or,
    Not,
    Yes,
}

/// A byte that means nothing in a trigger.
// A type of its own: a byte of a trigger is no tag.
#[derive(Clone, Copy, PartialEq, Eq)]
pub struct UnknownSymbol(pub u8);

impl TryFrom<u8> for Symbol {
    type Error = UnknownSymbol;

    ghost try_from_gives = { λ byte r. r ≡ symbol_from byte };

    fn try_from(byte: u8) -> Result<Symbol, UnknownSymbol> {
        match byte {
            0..=127 => Ok(Symbol::Signal(byte)),
            128 => Ok(Symbol::And),
            129 => Ok(Symbol::Or),
            130 => Ok(Symbol::Not),
            131 => Ok(Symbol::Yes),
            _ => Err(UnknownSymbol(byte)),
        }
    }
}
