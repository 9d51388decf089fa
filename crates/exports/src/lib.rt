// Loading for callers in C and Rust: how a file fares, and how often it is loaded.
#![tactic(auto)]

ghost use Rattle.std.specs.Prelude.{◌≡◌, ◌⊎◌};
ghost use Rattle.loading.specs.Loading.{loading};
ghost use Rattle.exports.specs.Told.{no_memory, refused, told, accepted};

use loading::charts::Chart;
use loading::refusals::Refusal;
use std::alloc::Global;

// In place of a refusal's number: there was no memory for a chart. A number, since the C interface has no enum with fields.
const NO_MEMORY: u8 = 255;

// In place of a count of loads: there was no memory for a chart. A count is below. A number, since the C interface has no Option.
const NOT_COUNTED: u64 = 4_294_967_296;

/// How a file fares: the number, layer and place of its refusal, or zeros if it is loaded. The number 255 says that there was no memory.
// Zeros, since the C interface has no Result. A type of its own: that of a refusal's code has no layout of C.
#[derive(Clone, Copy)]
#[repr(C)]
pub struct Outcome {
    pub number: u8,
    pub layer: u8,
    pub place: usize,
}

const LOADED: Outcome = Outcome {
    number: 0,
    layer: 0,
    place: 0,
};

impl From<Refusal> for Outcome {
    ghost from_gives = { λ refusal outcome. outcome ≡ refused refusal };

    fn from(refusal: Refusal) -> Outcome {
        let code = refusal.code();
        Outcome {
            number: code.number,
            layer: code.layer,
            place: code.place,
        }
    }
}

/// How the file fares.
#[unsafe(no_mangle)]
pub extern "C" fn vizsomek_outcome(heap: Global, bytes: &[u8]) -> Outcome
    ensures { (result ≡ no_memory) ⊎ (result ≡ told (loading bytes.now)) }
{
    match Chart::new(heap) {
        Ok(mut chart) => load(&mut chart, bytes),
        Err(_) => Outcome {
            number: NO_MEMORY,
            layer: 0,
            place: 0,
        },
    }
}

/// Loads the file so many times into one chart, and tells how many of the loads were accepted; 2 to the power 32 says that there was no memory.
#[unsafe(no_mangle)]
pub extern "C" fn vizsomek_loads(heap: Global, bytes: &[u8], times: u32) -> u64
    ensures { (result ≡ 4294967296) ⊎ (result ≡ accepted times (loading bytes.now)) }
{
    match Chart::new(heap) {
        Ok(mut chart) => count_loads(&mut chart, bytes, times),
        Err(_) => NOT_COUNTED,
    }
}

// How the file fares in this chart.
fn load(chart: &mut Chart, bytes: &[u8]) -> Outcome
    ensures { result ≡ told (loading bytes.now) }
{
    match chart.load(bytes) {
        Ok(()) => LOADED,
        Err(refusal) => Outcome::from(refusal),
    }
}

// How many of so many loads of the file into this chart are accepted.
fn count_loads(chart: &mut Chart, bytes: &[u8], times: u32) -> u64
    ensures { result ≡ accepted times (loading bytes.now) }
{
    // There is no `From` to `u64` from `usize`.
    (0..times).filter(|_turn| chart.load(bytes).is_ok()).count() as u64
}
