// What may be wrong with a field of a chart file that is well formed.
ghost use Rattle.std.specs.Prelude.{◌≡◌};
ghost use Rattle.validity.specs.Numbering.{number_of, layer_of};

/// What is wrong with a field.
#[derive(Clone, Copy)]
pub enum Fault {
    /// 21: a state's graph number names no graph in front of it, or that of state 0 is not 65,535.
    UnknownGraph,
    /// 21: a graph's owner names no state in front of it.
    UnknownOwner,
    /// 21: a transition's source names no state.
    UnknownSource,
    /// 21: a transition's target names no state.
    UnknownTarget,
    /// 21: a suspension names no state.
    UnknownSuspended,
    /// 21: an effect names no signal.
    UnknownEffect,
    /// 21: an effect names an input.
    InputEffect,
    /// 22: the file has no state; at its first field.
    NoState,
    /// 22: the root is no macrostate.
    RootNotMacro,
    /// 22: a graph's owner is no macrostate.
    OwnerNotMacro,
    /// 22: a macrostate owns no graph.
    NoGraph,
    /// 22: a graph has no state.
    EmptyGraph,
    /// 22: a macrostate stands at depth nine or more, the root standing at one.
    TooDeep,
    /// 23: a transition's ends are not in one graph. The root is in none.
    AcrossGraphs,
    /// 23: a transition leaves a final state.
    FromFinal,
    /// 23: a strong transition stands behind a weak or a normal one of its source.
    StrongAfterWeaker,
    /// 23: a weak transition stands behind a normal one of its source.
    WeakAfterNormal,
    /// 23: a second normal transition leaves one state.
    SecondNormal,
    /// 24: a normal transition is immediate.
    ImmediateNormal,
    /// 24: a normal transition has a trigger.
    TriggeredNormal,
    /// 24: a normal transition leaves what is no macrostate with a final state in every graph.
    FromUnending,
    /// 24: a macrostate with a final state in every graph, not the root, has no normal transition.
    NoNormal,
    /// 24: the root is suspended.
    RootSuspended,
    /// 24: a final state is suspended.
    FinalSuspended,
    /// 24: a state has a second suspension.
    SecondSuspension,
    /// 24: a suspension has no trigger.
    UntriggeredSuspension,
    /// 25: a byte of a trigger names no signal and no operator.
    UnknownOperator,
    /// 25: an operator of a trigger lacks an operand.
    MissingOperand,
    /// 25: a trigger needs more than eight stacked values.
    TooManyStacked,
    /// 25: a trigger comes to other than one value.
    NotOneValue,
    /// 26: a transition is on a ring of chain transitions.
    OnRing,
}

/// A field with a fault. `place` is the byte number, from 0, of the faulty field's tag.
#[derive(Clone, Copy)]
pub struct Invalid {
    pub place: usize,
    pub fault: Fault,
}

impl Fault {
    pub fn number(&self) -> u8
        ensures { result ≡ number_of self.now }
    {
        match self {
            Fault::UnknownGraph
            | Fault::UnknownOwner
            | Fault::UnknownSource
            | Fault::UnknownTarget
            | Fault::UnknownSuspended
            | Fault::UnknownEffect
            | Fault::InputEffect => 21,
            Fault::NoState
            | Fault::RootNotMacro
            | Fault::OwnerNotMacro
            | Fault::NoGraph
            | Fault::EmptyGraph
            | Fault::TooDeep => 22,
            Fault::AcrossGraphs
            | Fault::FromFinal
            | Fault::StrongAfterWeaker
            | Fault::WeakAfterNormal
            | Fault::SecondNormal => 23,
            Fault::ImmediateNormal
            | Fault::TriggeredNormal
            | Fault::FromUnending
            | Fault::NoNormal
            | Fault::RootSuspended
            | Fault::FinalSuspended
            | Fault::SecondSuspension
            | Fault::UntriggeredSuspension => 24,
            Fault::UnknownOperator
            | Fault::MissingOperand
            | Fault::TooManyStacked
            | Fault::NotOneValue => 25,
            Fault::OnRing => 26,
        }
    }

    pub fn layer(&self) -> u8
        ensures { result ≡ layer_of self.now }
    {
        2
    }
}
