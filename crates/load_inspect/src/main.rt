// Loads a chart file, the one that the first argument names or else chart.bin, and prints its listing, or why it is refused.
#![tactic(auto)]

use inspecting::inspect;
use load_listing::report;
use loading::charts::Chart;
use std::process::ExitCode;

fn main(rt: HostRuntime) -> ExitCode {
    inspect(&rt, |heap, bytes| {
        let mut chart = Chart::new(heap)?;
        report(heap, &mut chart, bytes)
    })
}
