//! `elements`: a proof checker for System E.
#![tactic(auto)]

use e_io::{StdSink, StdSource};
use e_run::{Status, exit_code, run};
use std::alloc::{AllocError, Global};
use std::env;
use std::io::ErrorKind;
use std::process::ExitCode;

/// The words after the program's name.
fn program_args(alloc: Global, mut args: env::Args) -> Result<Vec<String>, AllocError> {
    args.next();
    args.collect(alloc)
}

fn main(rt: HostRuntime) -> ExitCode {
    let words = match env::args(&rt) {
        Ok(args) => program_args(rt.alloc(), args),
        // A word that is no text is no command.
        Err(error) if error.kind() == ErrorKind::InvalidData => Ok(Vec::new(rt.alloc())),
        Err(error) if error.kind() == ErrorKind::OutOfMemory => Err(AllocError),
        Err(_) => return ExitCode::from(7),
    };
    let Ok(words) = words else {
        return ExitCode::from(exit_code(&Status::NoMemory));
    };
    let mut source = StdSource::new(rt.stdin());
    let mut sink = StdSink::new(rt.stdout());
    let status = run(rt.alloc(), &words, &mut source, &mut sink);
    ExitCode::from(exit_code(&status))
}
