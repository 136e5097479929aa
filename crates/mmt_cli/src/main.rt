//! The program `mmt`.
#![tactic(auto)]

#[cfg(test)]
mod delivery_tests;
#[cfg(test)]
mod fault_tests;
mod gateway;
#[cfg(test)]
mod gateway_tests;
mod help;
mod list;
mod mux;
#[cfg(test)]
mod mux_tests;
#[cfg(test)]
mod note_tests;
mod pace;
#[cfg(test)]
mod pace_tests;
mod paced_back;
mod peak;
#[cfg(test)]
mod peak_tests;
#[cfg(test)]
mod piece_tests;
mod run;
mod sent_back;
mod status;
mod take;
#[cfg(test)]
mod take_tests;
#[cfg(test)]
mod tests;
mod trial;
#[cfg(test)]
mod trial_tests;
#[cfg(test)]
mod worked;
#[cfg(test)]
mod worked_tests;

use mmt_io::{Port, RealPort, RealShelf};
use run::run;
use status::Status;
use std::process::ExitCode;
use std::{env, io};

// The words after the program's name, or the status where the system doesn't give them as texts.
fn words_of(rt: &HostRuntime) -> Result<Vec<String>, Status> {
    let all = match env::args(rt) {
        Ok(all) => all,
        Err(e) if e.kind() == io::ErrorKind::OutOfMemory => return Err(Status::OutOfMemory),
        Err(_) => return Err(Status::Usage { index: 0 }),
    };
    let mut words = Vec::new(rt.alloc());
    for word in all.skip(1) {
        if words.push(word).is_err() {
            return Err(Status::OutOfMemory);
        }
    }
    Ok(words)
}

// Ends with the status's number, and prints its text where the command didn't do its work.
fn ended(rt: &HostRuntime, status: Status) -> ExitCode {
    if status != Status::Done {
        let _ = eprintln!(rt; "mmt: {status}");
    }
    ExitCode::from(status.number())
}

// Prints the answer to `--help` or `--version`, or does what the words ask.
fn done<P: Port>(rt: &HostRuntime, words: &[String], port: &mut P) -> Status {
    if let Some(text) = help::answer_to(words) {
        return match port.write(text.as_bytes()) {
            Ok(()) => Status::Done,
            Err(_) => Status::WriteFault,
        };
    }
    let mut shelf = RealShelf::new(*rt);
    run(rt.alloc(), words, port, &mut shelf)
}

// Does what the words ask, over the streams of the system. What is gathered goes out at the end.
fn answered(rt: &HostRuntime, words: &[String]) -> Status {
    let (input, output, notes) = (rt.stdin(), rt.stdout(), rt.stderr());
    let mut port = match RealPort::new(rt.alloc(), input, output, notes) {
        Ok(port) => port,
        Err(_) => return Status::OutOfMemory,
    };
    let status = done(rt, words, &mut port);
    match port.close() {
        Ok(()) => status,
        Err(_) => Status::WriteFault,
    }
}

fn main(rt: HostRuntime) -> ExitCode {
    match words_of(&rt) {
        Ok(words) => ended(&rt, answered(&rt, &words)),
        Err(status) => ended(&rt, status),
    }
}
