// Events as lines of text to their bytes, and with -d back.
#![tactic(auto)]

mod events;
mod fields;
mod kinds;
mod numbers;
mod problem;
mod rows;
mod shown;
#[cfg(test)]
mod tests;
mod text;

use std::fmt::Display;
use std::io::{Read, Write};
use std::process::ExitCode;
use std::{env, io};

// Says why on standard error, and fails.
fn fail<D: Display + Drop>(rt: &HostRuntime, why: D) -> io::Result<()> {
    rt.eprintln(why)?;
    Err(io::ErrorKind::InvalidInput.into())
}

// The text on standard input to bytes; nothing is written where a line is refused.
fn to_bytes(rt: &HostRuntime) -> io::Result<()> {
    let Ok(text) = io::read_to_string(rt.alloc(), rt.stdin()) else {
        return fail(rt, "the input is no text");
    };
    match text::convert(rt.alloc(), text.as_str()) {
        Ok(bytes) => rt.stdout().write_all(bytes.as_slice()),
        Err(refusal) => fail(rt, refusal),
    }
}

// The bytes on standard input to text, up to the first byte in fault.
fn to_text(rt: &HostRuntime) -> io::Result<()> {
    let mut bytes = Vec::new(rt.alloc());
    rt.stdin().read_to_end(&mut bytes)?;
    let description = shown::describe(rt.alloc(), bytes.as_slice())?;
    rt.stdout().write_all(description.text.as_bytes())?;
    match description.fault {
        Some(fault) => fail(
            rt,
            format_args!("byte {}: no event can go on like this", fault.place),
        ),
        None => Ok(()),
    }
}

// What the words behind the program's name ask for.
fn run(rt: &HostRuntime) -> io::Result<()> {
    let words = env::args(rt)?.skip(1).collect::<Vec<String>>(rt.alloc())?;
    match words.as_slice() {
        [] => to_bytes(rt),
        [word] if word.as_str() == "-d" => to_text(rt),
        _ => fail(rt, "usage: script [-d] < input > output"),
    }
}

fn main(rt: HostRuntime) -> ExitCode {
    match run(&rt) {
        Ok(()) => ExitCode::SUCCESS,
        // what was wrong is written already
        Err(_) => ExitCode::FAILURE,
    }
}
