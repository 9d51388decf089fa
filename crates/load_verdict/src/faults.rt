// A plain sentence on each fault of the second layer.
use validity::faults::Fault;

pub(crate) fn sentence(fault: Fault) -> &'static str {
    match fault {
        Fault::UnknownGraph =>
            "The graph number of this state is not allowed: that of the first state is 65535, and that of any other is the number, from 0, of a graph in front of it.",
        Fault::UnknownOwner =>
            "The owner of this graph names no state in front of it: an owner is the number of a macrostate in front of its graph, and states count from 0 in the order of the file.",
        Fault::UnknownSource =>
            "The source of this transition names no state: a source is the number of a state, and states count from 0 in the order of the file.",
        Fault::UnknownTarget =>
            "The target of this transition names no state: a target is the number of a state, and states count from 0 in the order of the file.",
        Fault::UnknownSuspended =>
            "This suspension names no state: a suspension has the number of the state that it suspends, and states count from 0 in the order of the file.",
        Fault::UnknownEffect =>
            "A byte of these effects names no signal: each byte is the number of an output or of an internal signal, and signals count from 0 in the order of the file.",
        Fault::InputEffect =>
            "A byte of these effects names an input: each byte is the number of an output or of an internal signal.",
        Fault::NoState =>
            "The file has no state: the first state of a chart is its root, a macrostate with states inside.",
        Fault::RootNotMacro =>
            "This state is the root, being the first in the file, and is no macrostate: the kind of the root is 2.",
        Fault::OwnerNotMacro =>
            "The owner of this graph is no macrostate: a graph belongs to a macrostate, a state of the kind 2.",
        Fault::NoGraph =>
            "This macrostate owns no graph: a macrostate is the owner of at least one graph.",
        Fault::EmptyGraph =>
            "No state is in this graph: a graph has at least one state, and the first of them is its initial state.",
        Fault::TooDeep =>
            "This macrostate is nested too deep: macrostates nest at most eight deep, the root being the first.",
        Fault::AcrossGraphs =>
            "The source and the target of this transition are not in one graph: a transition leads from a state to one of the same graph, and the root is in none.",
        Fault::FromFinal =>
            "This transition leaves a final state: a transition leaves a simple state or a macrostate.",
        Fault::StrongAfterWeaker =>
            "This strong transition stands behind a weak or a normal one of its source: of the transitions from one state, strong ones stand first, then weak ones, then the normal one.",
        Fault::WeakAfterNormal =>
            "This weak transition stands behind the normal one of its source: of the transitions from one state, strong ones stand first, then weak ones, then the normal one.",
        Fault::SecondNormal =>
            "This normal transition stands behind another one of its source: at most one normal transition leaves a state.",
        Fault::ImmediateNormal =>
            "This normal transition is immediate: the flag of a normal transition is 0.",
        Fault::TriggeredNormal =>
            "This normal transition has a trigger: no trigger stands behind a normal transition.",
        Fault::FromUnending =>
            "This normal transition leaves a state that can't end: a normal transition leaves a macrostate with a final state in every graph.",
        Fault::NoNormal =>
            "No normal transition leaves this macrostate: a macrostate with a final state in every graph must have one, unless it is the root.",
        Fault::RootSuspended =>
            "This suspension is of the root: a suspension is of a simple state, or of a macrostate other than the root.",
        Fault::FinalSuspended =>
            "This suspension is of a final state: a suspension is of a simple state, or of a macrostate other than the root.",
        Fault::SecondSuspension =>
            "This suspension stands behind another one of its state: a state has at most one suspension.",
        Fault::UntriggeredSuspension =>
            "This suspension has no trigger: a trigger stands directly behind each suspension.",
        Fault::UnknownOperator =>
            "A byte of this trigger names no signal and no operator: each byte is the number of a signal, 128 for and, 129 for or, 130 for not, or 131 for yes.",
        Fault::MissingOperand =>
            "An operator of this trigger lacks an operand: 128 (and) and 129 (or) take two values that stand in front of them, and 130 (not) takes one.",
        Fault::TooManyStacked =>
            "This trigger needs more than eight stacked values: put operators nearer to their operands, so that at most eight values wait at a time.",
        Fault::NotOneValue =>
            "This trigger comes to other than one value: 128 (and) and 129 (or) have to join all its values into one.",
        Fault::OnRing =>
            "This transition is on a ring of chain transitions: immediate transitions, and normal ones whose source may end on entry, may not lead from a state back to it.",
    }
}
