// The desk: the plain description as a program. It carries out one event after another and looks at every window for every dot.
#![tactic(auto)]

use anyhow::Context;
use asked::sizes;
use desktop::carry::carry_out;
use desktop::look::dot_at;
use desktop::told::Told;
use layout::budget::Budget;
use layout::sizes::{Refusal, Sizes};
use layout::state::State;
use lines::Line;
use protocol::Kinds;
use std::io::Read;
use std::process::ExitCode;

const USAGE: &str = "usage: desk ACROSS DOWN WINDOWS PROGRAMS SIDE DOTS < EVENTS";

// The screen by rows, each dot in hexadecimal.
fn show(rt: &HostRuntime, z: Sizes, s: &State, pictures: &[u32]) -> anyhow::Result<()> {
    for j in 0..z.high.min(4096) as u16 {
        for i in 0..z.wide.min(4096) as u16 {
            let gap = if i == 0 { "" } else { " " };
            let dot = dot_at(s, pictures, i, j);
            print!(rt; "{gap}{dot:08x}")?;
        }
        println!(rt; "")?;
    }
    Ok(())
}

// The events of a call, one after another, up to the first that is refused.
fn run(rt: &HostRuntime, z: Sizes, budget: Budget, call: &[u8]) -> anyhow::Result<()> {
    let mut pictures = vec![in rt.alloc(); 0u32; budget.pictures]?;
    let mut s = State::new(z.windows.min(255) as u8);
    let kinds = Kinds::all();
    let programs = z.programs.min(64) as u8;
    let mut at = 0;
    // each event says where the next begins
    while at < call.len() {
        match protocol::read(call, at, programs, kinds) {
            Ok((e, end)) => {
                let clip = s.clip.bytes;
                let told = carry_out(z, &mut s, pictures.as_mut_slice(), call, e);
                if let Some(Told { program, word }) = told {
                    let source = clip.as_slice();
                    rt.println(Line {
                        program,
                        word,
                        source,
                    })?;
                }
                show(rt, z, &s, pictures.as_slice())?;
                at = end;
            }
            Err(fault) => {
                let no = Refusal::Fault {
                    place: fault.place as u32,
                };
                println!(rt; "{no}")?;
                return Ok(());
            }
        }
    }
    Ok(())
}

fn start(rt: &HostRuntime) -> anyhow::Result<()> {
    let words = std::env::args(rt)?
        .skip(1)
        .collect::<Vec<String>>(rt.alloc())?;
    let z = sizes(words.as_slice()).context(USAGE)?;
    let budget = match z.budget() {
        Ok(budget) => budget,
        Err(no) => {
            println!(rt; "{no}")?;
            return Ok(());
        }
    };
    let mut call = Vec::new(rt.alloc());
    rt.stdin().read_to_end(&mut call)?;
    run(rt, z, budget, call.as_slice())
}

fn main(rt: HostRuntime) -> ExitCode {
    match start(&rt) {
        Ok(()) => ExitCode::SUCCESS,
        Err(e) => {
            let _ = eprintln!(rt; "{e}");
            ExitCode::FAILURE
        }
    }
}
