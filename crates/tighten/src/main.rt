//! A program that reads a problem and calls on it, and tells what each call came to.
#![tactic(auto)]

mod box_text;
mod command;
mod failure;
mod problem;
mod refusal;
mod reply;
mod row_text;
mod session;
mod summary;
mod words;
mod wrong;

use crate::failure::Failure;
use crate::session::Session;
use std::io::{BufRead, BufReader};
use std::process::ExitCode;

/// Reads the input to its end, telling what each call came to and then what the run came to.
fn run(rt: &HostRuntime) -> Result<(), Failure> {
    let heap = rt.alloc();
    let mut session = Session::new(heap);
    // Making a reader fails for want of memory alone.
    let input = BufReader::new(heap, rt.stdin()).map_err(|_| Failure::Memory)?;
    for (number, line) in (1..).zip(input.lines(heap)) {
        let line = line.map_err(|error| Failure::Input(number, error))?;
        match session.obey(line.as_str()) {
            Ok(None) => {}
            Ok(Some(reply)) => println!(rt; "{reply}")?,
            Err(wrong) => return Err(Failure::Line(number, wrong.to_string(heap)?)),
        }
    }
    println!(rt; "{}", session.summary())?;
    Ok(())
}

fn main(rt: HostRuntime) -> ExitCode {
    match run(&rt) {
        Ok(()) => ExitCode::SUCCESS,
        Err(failure) => {
            let _ = eprintln!(rt; "{failure}");
            ExitCode::FAILURE
        }
    }
}
