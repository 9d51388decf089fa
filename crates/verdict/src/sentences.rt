// A plain sentence on each refusal.
use chart::kinds::Tag;
use chart::refusals::{Limit, Part, Refusal};
use std::fmt;

/// What is wrong with the file, in words.
#[derive(Clone, Copy)]
pub struct Sentence<'a>(pub &'a Refusal);

impl fmt::Display for Sentence<'_> {
    fn fmt<W: fmt::Write>(&self, f: &mut fmt::Formatter<W>) -> fmt::Result {
        match self.0 {
            Refusal::Empty => f.write_str("The file is empty; a chart file has 1 to 16384 bytes."),
            Refusal::TooLong { length } => {
                write!(
                    f,
                    "The file has {length} bytes; a chart file has 1 to 16384."
                )
            }
            Refusal::CutShort { .. } => f.write_str(
                "The file ends inside this field: a field has a tag of 1 byte, a length of 2 bytes, and as many bytes of contents as the length says.",
            ),
            Refusal::UnknownTag { code, .. } => write!(
                f,
                "No field has the tag {code}; the tags are 1 signal, 2 state, 3 graph, 4 transition, 5 suspension, 6 trigger and 7 effects."
            ),
            Refusal::OutOfOrder { tag, .. } => {
                let field = field(*tag);
                let rule = order(*tag);
                write!(f, "This {field} may not stand here: {rule}.")
            }
            Refusal::NotAllowed { tag, part, .. } => {
                let tag = *tag;
                let part = *part;
                NotAllowed { tag, part }.fmt(f)
            }
            Refusal::BeyondLimit { limit, .. } => {
                let most = limit.most();
                let things = things(*limit);
                write!(
                    f,
                    "This field is one too many: a chart has at most {most} {things}."
                )
            }
        }
    }
}

/// The part of a field with this tag is not allowed.
#[derive(Clone, Copy)]
struct NotAllowed {
    tag: Tag,
    part: Part,
}

impl fmt::Display for NotAllowed {
    fn fmt<W: fmt::Write>(&self, f: &mut fmt::Formatter<W>) -> fmt::Result {
        let part = part_name(self.part);
        let field = field(self.tag);
        write!(f, "The {part} of this {field} is not allowed: ")?;
        match self.part {
            Part::Length => {
                let contents = contents(self.tag);
                write!(f, "its contents are {contents}.")
            }
            Part::Kind => {
                let kinds = kinds(self.tag);
                write!(f, "it is {kinds}.")
            }
            Part::Flag => f.write_str("it is 0, or 1 for an immediate one."),
            Part::Name => f.write_str(
                "it has 1 to 16 letters, digits and underscores of ASCII, and no digit first.",
            ),
        }
    }
}

fn part_name(part: Part) -> &'static str {
    match part {
        Part::Length => "length",
        Part::Kind => "kind",
        Part::Flag => "flag",
        Part::Name => "name",
    }
}

/// Where a field with this tag stands.
fn order(tag: Tag) -> &'static str {
    match tag {
        Tag::Signal =>
            "all signals stand in front of the first state, graph, transition and suspension",
        Tag::State | Tag::Graph =>
            "all states and graphs stand in front of the first transition and suspension",
        Tag::Transition | Tag::Suspension =>
            "transitions and suspensions stand behind all signals, states and graphs",
        Tag::Trigger => "a trigger stands directly behind a transition or a suspension",
        Tag::Effects =>
            "effects stand directly behind a simple state, a transition or a transition's trigger",
    }
}

/// The contents of a field with this tag.
fn contents(tag: Tag) -> &'static str {
    match tag {
        Tag::Signal => "a kind of 1 byte and a name of 1 to 16 bytes",
        Tag::State => "a graph's number of 2 bytes, a kind of 1 byte and a name of 1 to 16 bytes",
        Tag::Graph => "a state's number of 2 bytes",
        Tag::Transition =>
            "two states' numbers of 2 bytes each, a kind of 1 byte and a flag of 1 byte",
        Tag::Suspension => "a state's number of 2 bytes",
        Tag::Trigger => "1 to 32 bytes",
        Tag::Effects => "1 to 16 bytes",
    }
}

/// The kinds of a field with this tag.
fn kinds(tag: Tag) -> &'static str {
    match tag {
        Tag::Signal => "0 for an input, 1 for an output or 2 for an internal signal",
        Tag::State => "0 for a simple state, 1 for a final state or 2 for a macrostate",
        Tag::Transition => "0 for strong, 1 for weak or 2 for normal",
        Tag::Graph | Tag::Suspension | Tag::Trigger | Tag::Effects => "none",
    }
}

/// What a limit is on.
fn things(limit: Limit) -> &'static str {
    match limit {
        Limit::Signals => "signals",
        Limit::Inputs => "inputs",
        Limit::States => "states",
        Limit::Graphs => "graphs",
        Limit::Transitions => "transitions",
    }
}

/// A field with this tag.
fn field(tag: Tag) -> &'static str {
    match tag {
        Tag::Signal => "signal",
        Tag::State => "state",
        Tag::Graph => "graph",
        Tag::Transition => "transition",
        Tag::Suspension => "suspension",
        Tag::Trigger => "trigger",
        Tag::Effects => "effects field",
    }
}
