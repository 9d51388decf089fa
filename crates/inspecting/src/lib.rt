// A program that prints the listing of a chart file: of the one that its first argument names, or of chart.bin.
#![tactic(auto)]

use std::alloc::{AllocError, Global};
use std::env::Env;
use std::io::{Eprint, Print};
use std::process::ExitCode;
use std::rt::Files;
use std::{env, fs, io};

const DEFAULT: &str = "chart.bin";

/// Prints the text that `listing` gives for the bytes of the file.
// What went wrong has been said: an error that main returned would be printed once more.
pub fn inspect<R, F>(rt: &R, listing: F) -> ExitCode
where
    R: Env + Files + Print + Eprint + AllocGlobal,
    F: FnOnce(Global, &[u8]) -> Result<String, AllocError>,
    requires { F.IsAlwaysCallable listing }
{
    let Ok(first) = first_argument(rt) else {
        return ExitCode::FAILURE;
    };
    let path = first.as_ref().map_or(DEFAULT, |path| path.as_str());
    match print(rt, path, listed(rt, path, listing)) {
        Ok(()) => ExitCode::SUCCESS,
        Err(_) => ExitCode::FAILURE,
    }
}

/// The first argument, if there is one.
fn first_argument<R: Env + Eprint + AllocGlobal>(rt: &R) -> io::Result<Option<String>> {
    match env::args(rt) {
        Ok(mut args) => Ok(args.nth(1)),
        Err(error) => {
            eprintln!(rt; "the arguments cannot be read: {error}")?;
            Err(error)
        }
    }
}

fn listed<R, F>(rt: &R, path: &str, listing: F) -> io::Result<String>
where
    R: Files + AllocGlobal,
    F: FnOnce(Global, &[u8]) -> Result<String, AllocError>,
    requires { F.IsAlwaysCallable listing }
{
    let bytes = fs::read(rt, path)?;
    let text = listing(rt.alloc(), bytes.as_slice())?;
    Ok(text)
}

fn print<R: Print + Eprint>(rt: &R, path: &str, text: io::Result<String>) -> io::Result<()> {
    match text {
        Ok(text) => rt.print(text),
        Err(error) => {
            eprintln!(rt; "{path} cannot be listed: {error}")?;
            Err(error)
        }
    }
}
