// Checks the sheet on standard input and prints the outcome, one line for each thing that is told.
#![tactic(auto)]

mod printing;
mod reading;
mod reporting;
mod writing;

use reporting::{Failure, report};
use std::io;
use std::process::ExitCode;

// The status where reading or writing failed.
const FAILED: u8 = 2;

// Says on standard error what failed; where that fails too, the status has to do.
fn fail(rt: &HostRuntime, what: &str, error: io::Error) -> ExitCode {
    let _ = rt.eprintln(format_args!("treecheck: {what}: {error}"));
    ExitCode::from(FAILED)
}

// Which streams are read and written, what is said where one fails, and the status: these are run, not proved.
fn main(rt: HostRuntime) -> ExitCode {
    match report(rt.alloc(), rt.reader(), &mut io::writer(&rt)) {
        Ok(()) => ExitCode::SUCCESS,
        Err(Failure::Reading(error)) => fail(&rt, "the sheet cannot be read", error),
        Err(Failure::Writing(error)) => fail(&rt, "the outcome cannot be written", error),
    }
}
