// Why the first layer refuses a file: a number, and the place of the first faulty field.
ghost use Rattle.std.specs.Prelude.{◌≡◌, Some};
ghost use Rattle.chart.specs.Refusals.{number_of, layer_of, place_of, code_of, code_text};

use crate::kinds::Tag;
use std::fmt;

/// The part of a field's contents that is not allowed.
#[derive(Clone, Copy, PartialEq, Eq)]
pub enum Part {
    Length,
    Kind,
    Flag,
    Name,
}

/// What a chart has at most so many of.
#[derive(Clone, Copy, PartialEq, Eq)]
pub enum Limit {
    Signals,
    Inputs,
    States,
    Graphs,
    Transitions,
}

/// `place` is the byte number, from 0, of the faulty field's tag.
#[derive(Clone, Copy)]
pub enum Refusal {
    /// 11: the file has no byte.
    Empty,
    /// 11: the file has more than 16,384 bytes.
    TooLong { length: usize },
    /// 12: the file ends inside the field.
    CutShort { place: usize },
    /// 13: no field has this tag.
    UnknownTag { place: usize, code: u8 },
    /// 13: such a field may not stand behind the fields in front of it.
    OutOfOrder { place: usize, tag: Tag },
    /// 14: a length, kind, flag or name is not allowed.
    NotAllowed { place: usize, tag: Tag, part: Part },
    /// 15: one more than the file may have.
    BeyondLimit { place: usize, limit: Limit },
}

/// What a refusal is told by.
#[derive(Clone, Copy, PartialEq, Eq)]
pub struct RefusalCode {
    pub number: u8,
    pub layer: u8,
    pub place: usize,
}

impl fmt::Display for RefusalCode {
    ghost output = { λ code. Some (code_text code) };

    fn fmt<W: fmt::Write>(&self, f: &mut fmt::Formatter<W>) -> fmt::Result {
        let RefusalCode {
            number,
            layer,
            place,
        } = *self;
        write!(f, "refused {number} layer {layer} at {place}")
    }
}

impl Refusal {
    pub fn code(&self) -> RefusalCode
        ensures { result ≡ code_of self.now }
    {
        RefusalCode {
            number: self.number(),
            layer: self.layer(),
            place: self.place(),
        }
    }

    pub fn number(&self) -> u8
        ensures { result ≡ number_of self.now }
    {
        match self {
            Refusal::Empty | Refusal::TooLong { .. } => 11,
            Refusal::CutShort { .. } => 12,
            Refusal::UnknownTag { .. } | Refusal::OutOfOrder { .. } => 13,
            Refusal::NotAllowed { .. } => 14,
            Refusal::BeyondLimit { .. } => 15,
        }
    }

    pub fn layer(&self) -> u8
        ensures { result ≡ layer_of self.now }
    {
        1
    }

    pub fn place(&self) -> usize
        ensures { result ≡ place_of self.now }
    {
        match self {
            Refusal::Empty | Refusal::TooLong { .. } => 0,
            Refusal::CutShort { place }
            | Refusal::UnknownTag { place, .. }
            | Refusal::OutOfOrder { place, .. }
            | Refusal::NotAllowed { place, .. }
            | Refusal::BeyondLimit { place, .. } => *place,
        }
    }
}
