//! Decides who is notified of the events of a Matrix homeserver.
//!
//! `push_server run --server NAME --journal PATH` reads lines from standard input, answers each on
//! standard output, and keeps what it accepts in the journal; `push_server check` counts what a
//! journal has. `serve` is the program; this file gives it the real outside.
#![tactic(auto)]

mod answer;
mod command_line;
mod file_disk;
mod halt;
mod journal_lines;
mod pieces;
mod serve;
mod session;
mod standard_input;
mod standard_output;
mod status;
#[cfg(test)]
mod tests;
mod writing;

use command_line::{Subcommand, read_words};
use file_disk::FileDisk;
use serve::serve;
use standard_input::StandardInput;
use standard_output::StandardOutput;
use status::Status;
use std::process::ExitCode;
use std::{env, io};

fn main(rt: HostRuntime) -> ExitCode {
    let status = run(&rt);
    if let Some(line) = status.line() {
        let _ = rt.eprintln(line);
    }
    ExitCode::from(status.code())
}

/// Serves the real outside with the words of the command line.
/// Words that aren't text are no words of ours.
fn run(rt: &HostRuntime) -> Status {
    let mut words = Vec::new(rt.alloc());
    match env::args(rt) {
        Ok(args) => {
            for word in args.skip(1) {
                if words.push(word).is_err() {
                    return Status::OutOfMemory;
                }
            }
        }
        Err(error) if error.kind() == io::ErrorKind::OutOfMemory => return Status::OutOfMemory,
        Err(_) => return Status::Usage,
    }
    let Some(said) = read_words(&words) else {
        return Status::Usage;
    };
    let mut disk = match said.subcommand {
        Subcommand::Run => FileDisk::open(rt, said.journal),
        Subcommand::Check => FileDisk::open_to_read(rt, said.journal),
    };
    let mut source = StandardInput::new(rt.reader());
    let mut sink = StandardOutput::new(io::writer(rt));
    serve(rt.alloc(), &words, &mut source, &mut sink, &mut disk)
}
