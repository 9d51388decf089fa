// The bytes of a case's file.
use std::alloc::{AllocError, AllocFailed, Global};

/// Why there are no bytes.
#[derive(Clone, Copy)]
pub(crate) enum CaseError {
    /// The text is not one that a case may have.
    NotACase,
    Memory(AllocError),
}

impl From<AllocError> for CaseError {
    fn from(error: AllocError) -> CaseError {
        CaseError::Memory(error)
    }
}

impl<T: Drop> From<AllocFailed<T>> for CaseError {
    fn from(failed: AllocFailed<T>) -> CaseError {
        CaseError::Memory(AllocError::from(failed))
    }
}

pub(crate) fn file_of(heap: Global, text: &str) -> Result<Vec<u8>, CaseError> {
    let mut file = Vec::new(heap);
    for part in text.split(',') {
        add_part(heap, &mut file, part)?;
    }
    Ok(file)
}

fn add_part(heap: Global, file: &mut Vec<u8>, part: &str) -> Result<(), CaseError> {
    let (times, text) = repeated(part)?;
    let bytes = bytes_of(heap, text)?;
    // A loop: there may be no memory for each.
    for _ in 0..times {
        file.extend_from_slice(bytes.as_slice())?;
    }
    Ok(())
}

/// How often a part stands in the file, and its bytes as text.
fn repeated(part: &str) -> Result<(u32, &str), CaseError> {
    match part.split_once('*') {
        Some((times, text)) => {
            let times = times.trim().parse().map_err(|_| CaseError::NotACase)?;
            Ok((times, text))
        }
        None => Ok((1, part)),
    }
}

/// The bytes of pairs of digits, with blanks between the pairs.
fn bytes_of(heap: Global, text: &str) -> Result<Vec<u8>, CaseError> {
    let mut bytes = Vec::new(heap);
    let mut digits = text.bytes();
    // A loop: each pair may be no byte, and there may be no memory for it.
    while let Some(c) = digits.next() {
        if c != b' ' {
            let byte = byte_of(c, digits.next()).ok_or(CaseError::NotACase)?;
            bytes.push(byte)?;
        }
    }
    Ok(bytes)
}

/// The byte of two digits; none if the second one is missing or either is no digit.
fn byte_of(high: u8, low: Option<u8>) -> Option<u8> {
    Some(digit(high)? << 4 | digit(low?)?)
}

/// The value of a hexadecimal digit; letters are capitals.
fn digit(c: u8) -> Option<u8> {
    match c {
        b'0'..=b'9' => Some(c - b'0'),
        b'A'..=b'F' => Some(c - b'A' + 10),
        _ => None,
    }
}
