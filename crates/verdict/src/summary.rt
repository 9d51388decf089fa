// The last line of a listing: how many of each there are.
ghost use Rattle.std.specs.Prelude.{◌≡◌, ◌++◌, Some, IfOk, string_bytes};
ghost use Rattle.chart.specs.Fields.{is};
ghost use Rattle.chart.specs.Limits.{count as counted};
ghost use Rattle.chart.specs.Listing.{fields_in};
ghost use Rattle.chart.specs.Stated.{stated};
ghost use Rattle.tables.specs.Views.{fields_of};
ghost use Rattle.verdict.specs.Texts.{summary_text, summary_in, summary_of};

use chart::fields::Placed;
use chart::kinds::Tag;
use std::alloc::AllocError;
use std::fmt;
use tables::tables::Tables;

/// How many of each there are.
#[derive(Clone, Copy, PartialEq, Eq)]
pub struct Summary {
    pub signals: usize,
    pub states: usize,
    pub graphs: usize,
    pub transitions: usize,
    pub suspensions: usize,
}

impl fmt::Display for Summary {
    ghost output = { λ s. Some (summary_text s) };

    fn fmt<W: fmt::Write>(&self, f: &mut fmt::Formatter<W>) -> fmt::Result {
        let Summary {
            signals,
            states,
            graphs,
            transitions,
            suspensions,
        } = *self;
        write!(
            f,
            "{signals} signals, {states} states, {graphs} graphs, {transitions} transitions, {suspensions} suspensions\n"
        )
    }
}

impl Summary {
    /// Of the fields of a file.
    pub fn of_fields(fields: &[Placed<'_>]) -> Summary
        ensures { result ≡ summary_in (fields_in fields.now) }
    {
        Summary {
            signals: count(fields, Tag::Signal),
            states: count(fields, Tag::State),
            graphs: count(fields, Tag::Graph),
            transitions: count(fields, Tag::Transition),
            suspensions: count(fields, Tag::Suspension),
        }
    }

    /// Of the file that the tables are of.
    pub fn of_tables(tables: &Tables) -> Summary
        ensures { result ≡ summary_in (fields_of tables.now) }
    {
        Summary {
            signals: tables.signal_count(),
            states: tables.state_count(),
            graphs: tables.graph_count(),
            transitions: tables.transition_count(),
            suspensions: tables.suspension_count(),
        }
    }
}

/// The text, and behind it how many of each there are in the file that the tables are of.
pub fn with_summary(mut text: String, tables: &Tables) -> Result<String, AllocError>
    ensures { IfOk result (λ whole. string_bytes whole ≡ string_bytes text ++ summary_of (fields_of tables.now)) }
{
    let summary = Summary::of_tables(tables);
    write!(text, "{summary}")?;
    Ok(text)
}

/// How many of the fields have this tag.
fn count(fields: &[Placed<'_>], tag: Tag) -> usize
    ensures { result ≡ counted (is tag) (fields_in fields.now) }
{
    fields.iter().filter(|placed| has_tag(placed, tag)).count()
}

fn has_tag(placed: &Placed<'_>, tag: Tag) -> bool
    ensures { result ≡ is tag (stated placed.now.field) }
{
    placed.field.tag() == tag
}
