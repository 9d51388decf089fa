// The kinds of things in a chart file, each written as one byte.
ghost use Rattle.std.specs.Prelude.{◌≡◌};
ghost use Rattle.std.specs.Option.{ok_or};
ghost use Rattle.chart.specs.Kinds.{tag_from, signal_kind_from, state_kind_from, transition_kind_from, flag_from, unknown_tag};
ghost use Rattle.chart.specs.declared.refusals.Part.TheVariants.{Kind};

use crate::refusals::Part;

/// What a field is about; its first byte.
#[derive(Clone, Copy, PartialEq, Eq)]
pub enum Tag {
    Signal,
    State,
    Graph,
    Transition,
    Suspension,
    Trigger,
    Effects,
}

#[derive(Clone, Copy, PartialEq, Eq)]
pub enum SignalKind {
    Input,
    Output,
    Internal,
}

#[derive(Clone, Copy, PartialEq, Eq)]
pub enum StateKind {
    Simple,
    Final,
    Macro,
}

/// In the order in which the transitions of a state stand.
#[derive(Clone, Copy, PartialEq, Eq, PartialOrd, Ord)]
pub enum TransitionKind {
    Strong,
    Weak,
    Normal,
}

/// A code that no tag has.
#[derive(Clone, Copy, PartialEq, Eq)]
pub struct UnknownTag(pub u8);

impl TryFrom<u8> for Tag {
    type Error = UnknownTag;

    ghost try_from_gives = { λ code r. r ≡ ok_or (tag_from code) (unknown_tag code) };

    fn try_from(code: u8) -> Result<Tag, UnknownTag> {
        match code {
            1 => Ok(Tag::Signal),
            2 => Ok(Tag::State),
            3 => Ok(Tag::Graph),
            4 => Ok(Tag::Transition),
            5 => Ok(Tag::Suspension),
            6 => Ok(Tag::Trigger),
            7 => Ok(Tag::Effects),
            _ => Err(UnknownTag(code)),
        }
    }
}

// A `TryFrom` for each kind, as Rust has it: variants and codes are all that they have, and a table of them would be no shorter.
impl TryFrom<u8> for SignalKind {
    type Error = Part;

    ghost try_from_gives = { λ code r. r ≡ ok_or (signal_kind_from code) Kind };

    fn try_from(code: u8) -> Result<SignalKind, Part> {
        match code {
            0 => Ok(SignalKind::Input),
            1 => Ok(SignalKind::Output),
            2 => Ok(SignalKind::Internal),
            _ => Err(Part::Kind),
        }
    }
}

impl TryFrom<u8> for StateKind {
    type Error = Part;

    ghost try_from_gives = { λ code r. r ≡ ok_or (state_kind_from code) Kind };

    fn try_from(code: u8) -> Result<StateKind, Part> {
        match code {
            0 => Ok(StateKind::Simple),
            1 => Ok(StateKind::Final),
            2 => Ok(StateKind::Macro),
            _ => Err(Part::Kind),
        }
    }
}

impl TryFrom<u8> for TransitionKind {
    type Error = Part;

    ghost try_from_gives = { λ code r. r ≡ ok_or (transition_kind_from code) Kind };

    fn try_from(code: u8) -> Result<TransitionKind, Part> {
        match code {
            0 => Ok(TransitionKind::Strong),
            1 => Ok(TransitionKind::Weak),
            2 => Ok(TransitionKind::Normal),
            _ => Err(Part::Kind),
        }
    }
}

/// A flag is written 0 for no and 1 for yes.
// A function: Rust lets no crate but the library's write `TryFrom<u8> for bool`.
pub(crate) fn flag_from_code(code: u8) -> Result<bool, Part>
    ensures { result ≡ ok_or (flag_from code) Part.Flag }
{
    match code {
        0 => Ok(false),
        1 => Ok(true),
        _ => Err(Part::Flag),
    }
}
