// The rule on triggers: in postfix, each byte a signal or an operator, at most eight values stacked and one in the end.
ghost use Rattle.std.specs.Prelude.{◌≡◌, ◌+◌, ◌-◌, if◌then◌else◌, Some, None, nat_eq};
ghost use Rattle.validity.specs.Triggers.{pushed, operated, stacked as stacked_by, postfix_fault};
ghost use Rattle.validity.specs.Faults.{trigger_fault};

use crate::rule::Rule;
use crate::site::Site;
use chart::fields::Field;
use chart::postfix::Symbol;
use validity::faults::Fault;

// No more values are stacked at once.
const MOST_VALUES: usize = 8;

// One value more.
fn push(values: usize) -> Result<usize, Fault>
    ensures { result ≡ pushed values }
{
    if values < MOST_VALUES {
        Ok(values + 1)
    } else {
        Err(Fault::TooManyStacked)
    }
}

// An operator with one operand more than `fewer`. It leaves one value in place of them.
fn operate(values: usize, fewer: usize) -> Result<usize, Fault>
    ensures { result ≡ operated (fewer + 1) values (values - fewer) }
{
    if values > fewer {
        Ok(values - fewer)
    } else {
        Err(Fault::MissingOperand)
    }
}

// How many values are stacked behind the byte, with so many in front of it.
fn stacked(signals: usize, byte: u8, values: usize) -> Result<usize, Fault>
    ensures { result ≡ stacked_by signals byte values }
{
    match Symbol::try_from(byte) {
        Ok(Symbol::Signal(number)) if usize::from(number) < signals => push(values),
        Ok(Symbol::And | Symbol::Or) => operate(values, 1),
        Ok(Symbol::Not) => operate(values, 0),
        Ok(Symbol::Yes) => push(values),
        Ok(Symbol::Signal(_)) | Err(_) => Err(Fault::UnknownOperator),
    }
}

// What is wrong with so many values at the end of a trigger.
fn end_fault(values: usize) -> Option<Fault>
    ensures { result ≡ (if nat_eq values 1 then None else Some Fault.NotOneValue) }
{
    (values != 1).then_some(Fault::NotOneValue)
}

// What is wrong with a trigger in postfix, of a chart with so many signals.
fn postfix_fault(signals: usize, postfix: &[u8]) -> Option<Fault>
    ensures { result ≡ postfix_fault signals postfix.now 0 }
{
    postfix
        .iter()
        .try_fold(0, |values, byte| stacked(signals, *byte, values))
        .map_or_else(Some, end_fault)
}

/// The rule on triggers.
#[derive(Clone, Copy)]
pub(crate) struct Triggers;

impl Rule for Triggers {
    ghost breaks = { λ _. trigger_fault };

    fn fault(&self, site: &Site<'_>) -> Option<Fault> {
        match site.field {
            Field::Trigger { postfix } => postfix_fault(site.tables.signal_count(), postfix),
            _ => None,
        }
    }
}
