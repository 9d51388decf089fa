// Test cases as lines of text: a name, a colon and a file's bytes in hexadecimal; a `#` begins a remark.
// Bytes stand in parts with commas between them, and `N*` in front of a part repeats it.
#![tactic(auto)]

use std::alloc::{AllocError, Global};
use std::io::{Input, Print};

mod files;

use files::{CaseError, file_of};

/// Reads the cases from standard input, and prints for each what `report` gives for its name and file.
pub fn run<R, F>(rt: &R, mut report: F) -> anyhow::Result<()>
where
    R: Input + Print + AllocGlobal,
    F: FnMut(&str, &[u8]) -> Result<String, AllocError>,
    requires { F.IsAlwaysCallable report }
{
    let heap = rt.alloc();
    for line in rt.lines(heap) {
        let line = line?;
        if let Some((name, text)) = case_in(line.as_str()) {
            let told = match file_of(heap, text) {
                Ok(file) => report(name, file.as_slice())?,
                Err(error) => unread_text(heap, name, error)?,
            };
            rt.println(told)?;
        }
    }
    Ok(())
}

/// The name and the text of the case in the line, if there is one.
fn case_in(line: &str) -> Option<(&str, &str)> {
    let case = line.split_once('#').map_or(line, |(case, _)| case);
    case.split_once(':')
}

/// What is printed for a case whose file cannot be read.
fn unread_text(heap: Global, name: &str, error: CaseError) -> Result<String, AllocError> {
    match error {
        CaseError::NotACase => format!(in heap; "{name}: not a case"),
        CaseError::Memory(error) => Err(error),
    }
}
