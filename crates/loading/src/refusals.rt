// Why a file is not loaded.
ghost use Rattle.std.specs.Prelude.{◌≡◌};
ghost use Rattle.loading.specs.declared.refusals.Refusal.TheVariants.{Malformed as by_format, Invalid as by_rules};
ghost use Rattle.loading.specs.Numbers.{number_of, layer_of, place_of, code_of};

use chart::refusals::{Refusal as Malformed, RefusalCode};
use validity::faults::Invalid;

/// Why a file is refused: by its format, or by the rules of a valid chart.
#[derive(Clone, Copy)]
pub enum Refusal {
    Malformed(Malformed),
    Invalid(Invalid),
}

impl From<Malformed> for Refusal {
    ghost from_gives = { λ malformed refusal. refusal ≡ by_format malformed };

    fn from(malformed: Malformed) -> Refusal {
        Refusal::Malformed(malformed)
    }
}

impl From<Invalid> for Refusal {
    ghost from_gives = { λ breach refusal. refusal ≡ by_rules breach };

    fn from(breach: Invalid) -> Refusal {
        Refusal::Invalid(breach)
    }
}

impl Refusal {
    /// What the refusal is told by.
    pub fn code(&self) -> RefusalCode
        ensures { result ≡ code_of self.now }
    {
        match self {
            Refusal::Malformed(refusal) => refusal.code(),
            Refusal::Invalid(invalid) => RefusalCode {
                number: invalid.fault.number(),
                layer: invalid.fault.layer(),
                place: invalid.place,
            },
        }
    }

    /// 11 to 15 for the format, 21 to 26 for the rules.
    pub fn number(&self) -> u8
        ensures { result ≡ number_of self.now }
    {
        self.code().number
    }

    /// 1 for the format, 2 for the rules.
    pub fn layer(&self) -> u8
        ensures { result ≡ layer_of self.now }
    {
        self.code().layer
    }

    /// The byte number, from 0, of the faulty field's tag; 0 for a file with no byte or too many.
    pub fn place(&self) -> usize
        ensures { result ≡ place_of self.now }
    {
        self.code().place
    }
}
