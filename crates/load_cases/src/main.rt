// Runs test cases of loading. All files are loaded into one chart, in turn, and for each case one line tells how its file fares.
#![tactic(auto)]

use case_lines::run;
use loading::charts::Chart;
use std::alloc::{AllocError, Global};

fn report(heap: Global, chart: &mut Chart, name: &str, file: &[u8]) -> Result<String, AllocError> {
    match chart.load(file) {
        Ok(()) => {
            let count = chart.tables().file().field_count();
            format!(in heap; "{name}: loaded, {count} fields")
        }
        Err(refusal) => {
            let code = refusal.code();
            format!(in heap; "{name}: {code}")
        }
    }
}

fn main(rt: HostRuntime) -> anyhow::Result<()> {
    let heap = rt.alloc();
    let mut chart = Chart::new(heap)?;
    run(&rt, |name, file| report(heap, &mut chart, name, file))
}
