// A field's contents, once its tag is known.
ghost use Rattle.std.specs.Prelude.{◌≡◌, length};
ghost use Rattle.std.specs.Option.{ok_or};
ghost use Rattle.chart.specs.WellFormed.{between};
ghost use Rattle.chart.specs.Decoding.{decode as decoded, tested, word_in, Named};
ghost use Rattle.chart.specs.Stated.{stated_by};

use crate::fields::Field;
use crate::kinds::{Tag, TransitionKind, flag_from_code};
use crate::names::{LONGEST_NAME, is_name};
use crate::numbers::word;
use crate::refusals::Part;

/// A trigger has no more symbols.
const LONGEST_TRIGGER: usize = 32;

const MOST_EFFECTS: usize = 16;

/// The field of this tag with these contents, or the first part of them that is not allowed: length, kind, flag, name.
pub(crate) fn decode(tag: Tag, contents: &[u8]) -> Result<Field<'_>, Part>
    ensures { stated_by result ≡ decoded tag contents.now }
{
    match tag {
        Tag::Signal => signal(contents),
        Tag::State => state(contents),
        Tag::Graph => Ok(Field::Graph {
            owner: only_word(contents)?,
        }),
        Tag::Transition => transition(contents),
        Tag::Suspension => Ok(Field::Suspension {
            state: only_word(contents)?,
        }),
        Tag::Trigger => {
            check_length(contents, LONGEST_TRIGGER)?;
            Ok(Field::Trigger { postfix: contents })
        }
        Tag::Effects => {
            check_length(contents, MOST_EFFECTS)?;
            Ok(Field::Effects { signals: contents })
        }
    }
}

/// There are 1 to `most` bytes.
fn check_length(bytes: &[u8], most: usize) -> Result<(), Part>
    ensures { result ≡ tested (between 1 most (length bytes.now)) Part.Length }
{
    if bytes.is_empty() || bytes.len() > most {
        return Err(Part::Length);
    }
    Ok(())
}

/// The number that the contents are.
fn only_word(contents: &[u8]) -> Result<u16, Part>
    ensures { result ≡ ok_or (word_in contents.now) Part.Length }
{
    match contents {
        [high, low] => Ok(word(*high, *low)),
        _ => Err(Part::Length),
    }
}

fn signal(contents: &[u8]) -> Result<Field<'_>, Part>
    ensures { stated_by result ≡ decoded Tag.Signal contents.now }
{
    let [code, name @ ..] = contents else {
        return Err(Part::Length);
    };
    let kind = named(*code, name)?;
    Ok(Field::Signal { kind, name })
}

fn state(contents: &[u8]) -> Result<Field<'_>, Part>
    ensures { stated_by result ≡ decoded Tag.State contents.now }
{
    let [high, low, code, name @ ..] = contents else {
        return Err(Part::Length);
    };
    let kind = named(*code, name)?;
    Ok(Field::State {
        graph: word(*high, *low),
        kind,
        name,
    })
}

/// The kind with this code, of a signal or a state of this name.
fn named<K: TryFrom<u8, Error = Part> + Drop>(code: u8, name: &[u8]) -> Result<K, Part>
    ensures { Named (K.try_from_gives code) name.now result }
{
    check_length(name, LONGEST_NAME)?;
    let kind = K::try_from(code)?;
    if is_name(name) {
        Ok(kind)
    } else {
        Err(Part::Name)
    }
}

fn transition(contents: &[u8]) -> Result<Field<'_>, Part>
    ensures { stated_by result ≡ decoded Tag.Transition contents.now }
{
    let [source_high, source_low, target_high, target_low, code, flag] = contents else {
        return Err(Part::Length);
    };
    let kind = TransitionKind::try_from(*code)?;
    let immediate = flag_from_code(*flag)?;
    Ok(Field::Transition {
        source: word(*source_high, *source_low),
        target: word(*target_high, *target_low),
        kind,
        immediate,
    })
}
