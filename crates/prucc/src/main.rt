//! `prucc`: compiles C for the two real-time cores of the PRU-ICSS, and runs what it compiled.
#![tactic(auto)]

mod code;
mod executables;
mod form;
mod job;
pub mod laws;
pub mod machine;
mod refusal;
mod run;
mod source;
mod sources;
mod status;
mod summary;
#[cfg(test)]
mod tests;
mod top;
#[cfg(test)]
mod tree_tests;
#[cfg(test)]
mod tree_text;
mod work;

use fileset::{HostFiles, HostSink};
use status::Status;
use std::process::ExitCode;
use std::{env, io};
use top::prucc;

// The words after the program's name. One that isn't UTF-8 is no word that the program knows.
fn words(rt: &HostRuntime) -> Result<Vec<String>, Status> {
    let args = match env::args(rt) {
        Ok(args) => args,
        Err(error) if error.kind() == io::ErrorKind::OutOfMemory => return Err(Status::NoMemory),
        Err(_) => return Err(Status::Words),
    };
    Ok(args.skip(1).collect(rt.alloc())?)
}

fn run_host(rt: &HostRuntime) -> Status {
    match words(rt) {
        Ok(words) => prucc(
            rt.alloc(),
            &words,
            &mut HostFiles::new(rt),
            &mut HostSink::new(rt),
        ),
        Err(status) => status,
    }
}

fn main(rt: HostRuntime) -> ExitCode {
    let status = run_host(&rt);
    let number = status.number();
    if number != 0 {
        // The exit status says it, too, where nobody reads the text.
        let _ = eprintln!(rt; "{status}");
    }
    ExitCode::from(number)
}
