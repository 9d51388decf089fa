// Triggers: postfix in the file, infix in a listing.
ghost use Rattle.std.specs.Prelude.{◌≡◌, ◌≤◌, length};

use crate::names::SignalName;
use chart::postfix::Symbol;
use std::fmt;
use tables::tables::Tables;

/// ` when ` and the trigger, or nothing if there is none.
#[derive(Clone, Copy)]
pub struct Condition<'a> {
    pub tables: &'a Tables,
    pub trigger: Option<&'a [u8]>,
}

impl fmt::Display for Condition<'_> {
    fn fmt<W: fmt::Write>(&self, f: &mut fmt::Formatter<W>) -> fmt::Result {
        let Some(postfix) = self.trigger else {
            return Ok(());
        };
        f.write_str(" when ")?;
        if is_expression(postfix) {
            Infix {
                tables: self.tables,
                postfix,
                place: Binding::Or,
            }
            .fmt(f)
        } else {
            IllFormed { postfix }.fmt(f)
        }
    }
}

/// The bytes of a trigger that can't be evaluated.
#[derive(Clone, Copy)]
struct IllFormed<'a> {
    postfix: &'a [u8],
}

impl fmt::Display for IllFormed<'_> {
    fn fmt<W: fmt::Write>(&self, f: &mut fmt::Formatter<W>) -> fmt::Result {
        f.write_str("(ill-formed:")?;
        for byte in self.postfix {
            write!(f, " {byte:02X}")?;
        }
        f.write_str(")")
    }
}

/// How tightly an expression holds together, the loosest first.
#[derive(Clone, Copy, PartialEq, Eq, PartialOrd, Ord)]
enum Binding {
    Or,
    And,
    /// A signal, `yes`, or a negation.
    Tight,
}

impl Binding {
    /// Of an expression that ends with the symbol.
    fn of(symbol: Symbol) -> Binding {
        match symbol {
            Symbol::Or => Binding::Or,
            Symbol::And => Binding::And,
            Symbol::Not | Symbol::Signal(_) | Symbol::Yes => Binding::Tight,
        }
    }
}

/// An expression in infix, in parentheses if its place asks for a tighter one.
#[derive(Clone, Copy)]
struct Infix<'a> {
    tables: &'a Tables,
    postfix: &'a [u8],
    place: Binding,
}

impl fmt::Display for Infix<'_> {
    fn fmt<W: fmt::Write>(&self, f: &mut fmt::Formatter<W>) -> fmt::Result {
        let [operands @ .., last] = self.postfix else {
            return Ok(());
        };
        let Ok(symbol) = Symbol::try_from(*last) else {
            return Ok(());
        };
        let is_loose = Binding::of(symbol) < self.place;
        if is_loose {
            f.write_str("(")?;
        }
        // Two arms: a function for both would take the operands, the text, and the bindings of either side.
        match symbol {
            Symbol::And => {
                let (left, right) = in_two(operands);
                self.part(left, Binding::And).fmt(f)?;
                f.write_str(" and ")?;
                self.part(right, Binding::Tight).fmt(f)?;
            }
            Symbol::Or => {
                let (left, right) = in_two(operands);
                self.part(left, Binding::Or).fmt(f)?;
                f.write_str(" or ")?;
                self.part(right, Binding::And).fmt(f)?;
            }
            Symbol::Not => {
                f.write_str("not ")?;
                self.part(operands, Binding::Tight).fmt(f)?;
            }
            Symbol::Yes => f.write_str("yes")?,
            Symbol::Signal(signal) => SignalName::of(self.tables, signal).fmt(f)?,
        }
        if is_loose {
            f.write_str(")")?;
        }
        Ok(())
    }
}

impl<'a> Infix<'a> {
    /// An operand of the expression.
    fn part(&self, postfix: &'a [u8], place: Binding) -> Infix<'a>
        ensures { result.postfix.now ≡ postfix.now }
    {
        Infix {
            tables: self.tables,
            postfix,
            place,
        }
    }
}

/// The operands of `and` or `or`, looked at once from the end: the right one begins where nothing is wanted any more.
fn in_two(operands: &[u8]) -> (&[u8], &[u8])
    ensures left { length result.0.now ≤ length operands.now }
    ensures right { length result.1.now ≤ length operands.now }
{
    let mut wanted = 1;
    let start = operands
        .iter()
        .rposition(|byte| {
            wanted = wanted_in_front(wanted, *byte);
            wanted == 0
        })
        .unwrap_or(0);
    operands.split_at(start)
}

/// How many expressions are wanted in front of the byte, with so many wanted up to it.
fn wanted_in_front(wanted: usize, byte: u8) -> usize {
    match Symbol::try_from(byte) {
        Ok(Symbol::And | Symbol::Or) => wanted.saturating_add(1),
        Ok(Symbol::Signal(_) | Symbol::Yes) => wanted.saturating_sub(1),
        Ok(Symbol::Not) | Err(_) => wanted,
    }
}

/// Whether the bytes come to one value.
fn is_expression(postfix: &[u8]) -> bool {
    postfix.iter().try_fold(0, stacked) == Some(1)
}

// The rules count with the limit of eight and refuse unknown signals; a listing shows what they refuse.
/// How many values are stacked behind the byte, with so many in front of it; none if it lacks an operand or is no symbol.
fn stacked(values: usize, byte: &u8) -> Option<usize> {
    match Symbol::try_from(*byte).ok()? {
        Symbol::Signal(_) | Symbol::Yes => values.checked_add(1),
        Symbol::Not => values.checked_sub(1)?.checked_add(1),
        Symbol::And | Symbol::Or => values.checked_sub(2)?.checked_add(1),
    }
}
