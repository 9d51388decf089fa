// Prints the listing of a chart file: of the one that the first argument names, or of chart.bin.
#![tactic(auto)]

use inspecting::inspect;
use listing::listing;
use std::process::ExitCode;

fn main(rt: HostRuntime) -> ExitCode {
    inspect(&rt, listing)
}
