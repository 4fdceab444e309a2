//! The program `tva`: replays packet traces through a network of the Traffic Validation Architecture.
//! `run` does what the words of the command line ask for, over whatever shelf, sink and gate it is
//! handed. Its contract promises, over what its loads gave and its writes took, which text is written, that
//! on every status what was written is the beginning of it, and for what cause each refusal comes; and of
//! every run of an accepted configuration and trace, over any files, what its nodes, honest senders and
//! files keep. It audits reports by the same words.
#![tactic(auto)]

mod audited;
mod check;
mod command;
mod commands;
mod laws;
mod limits;
mod lines;
mod parts;
mod replay;
mod status;
#[cfg(test)]
mod tests;
mod top;

use arrayvec::ArrayString;
use status::{Status, status_text};
use std::io::ErrorKind;
use std::process::ExitCode;
use std::{env, io};
use top::run;
use tva_outside::{FileShelf, OpenGate, StdSink};

// The words after the program's name.
fn words(rt: &(impl std::rt::Env + AllocGlobal)) -> io::Result<Vec<String>> {
    let mut words = Vec::new(rt.alloc());
    for word in env::args(rt)?.skip(1) {
        words.push(word)?;
    }
    Ok(words)
}

// Words that can't be taken are a fault of reading, but for want of memory.
fn status_of_words(error: &io::Error) -> Status {
    if error.kind() == ErrorKind::OutOfMemory {
        Status::OutOfMemory
    } else {
        Status::ReadFault
    }
}

fn main(rt: HostRuntime) -> ExitCode {
    let status = match words(&rt) {
        Ok(words) => run(
            &rt,
            rt.alloc(),
            &words,
            &mut FileShelf::new(&rt),
            &mut StdSink::new(&rt),
            &OpenGate,
        ),
        Err(error) => status_of_words(&error),
    };
    let number = status.number();
    if number != 0 {
        let mut text = ArrayString::new();
        status_text(&status, &mut text);
        let _ = eprintln!(rt; "{text}");
    }
    ExitCode::from(number)
}
