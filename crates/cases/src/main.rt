// Runs the first layer's test cases. For each case one line tells how its file fares,
// or, if its name begins with `show`, the listing of the file follows the name.
#![tactic(auto)]

use case_lines::run;
use chart::files::{ReadError, read_fields};
use listing::listing;
use std::alloc::{AllocError, Global};

fn outcome(heap: Global, file: &[u8]) -> Result<String, AllocError> {
    let mut fields = Vec::new(heap);
    match read_fields(file, &mut fields) {
        Ok(()) => {
            let count = fields.len();
            format!(in heap; "{count} fields")
        }
        Err(ReadError::Refused(refusal)) => {
            let code = refusal.code();
            format!(in heap; "{code}")
        }
        Err(ReadError::Memory(error)) => Err(error),
    }
}

fn report(heap: Global, name: &str, file: &[u8]) -> Result<String, AllocError> {
    if name.starts_with("show ") {
        let text = listing(heap, file)?;
        return format!(in heap; "{name}:\n{text}");
    }
    let told = outcome(heap, file)?;
    format!(in heap; "{name}: {told}")
}

fn main(rt: HostRuntime) -> anyhow::Result<()> {
    let heap = rt.alloc();
    run(&rt, |name, file| report(heap, name, file))
}
