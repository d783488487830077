// The screen: a window system over the bytes of events, and a screen that is fed by what it sends.
#![tactic(auto)]

mod asks;
mod report;
mod system;

use layout::sizes::Refusal;
use protocol::Kinds;
use report::Report;
use std::io::Read;
use std::process::ExitCode;
use system::System;

// The events of a call, one after another, up to the first that is refused: its number and place are printed.
fn run(
    rt: &HostRuntime,
    programs: u8,
    system: &mut System,
    report: &mut Report,
    call: &[u8],
) -> anyhow::Result<()> {
    let kinds = Kinds::all();
    let mut at = 0;
    // each event says where the next begins
    while at < call.len() {
        match protocol::read(call, at, programs, kinds) {
            Ok((_, end)) => {
                let done = system.event(&call[at..end])?;
                report.event(rt, system, done)?;
                at = end;
            }
            Err(fault) => {
                let no = Refusal::Fault {
                    place: fault.place as u32,
                };
                println!(rt; "{no}")?;
                return Ok(());
            }
        }
    }
    Ok(())
}

fn start(rt: &HostRuntime) -> anyhow::Result<()> {
    let words = std::env::args(rt)?
        .skip(1)
        .collect::<Vec<String>>(rt.alloc())?;
    let (what, z) = asks::asks(words.as_slice())?;
    let budget = match z.budget() {
        Ok(budget) => budget,
        Err(no) => {
            println!(rt; "{no}")?;
            return Ok(());
        }
    };
    let mut system = System::new(rt, z, budget)?;
    let mut report = Report::new(rt, what, budget.words)?;
    let mut call = Vec::new(rt.alloc());
    rt.stdin().read_to_end(&mut call)?;
    let programs = z.programs.min(64) as u8;
    run(rt, programs, &mut system, &mut report, call.as_slice())?;
    report.end(rt)
}

fn main(rt: HostRuntime) -> ExitCode {
    match start(&rt) {
        Ok(()) => ExitCode::SUCCESS,
        Err(e) => {
            let _ = eprintln!(rt; "{e}");
            ExitCode::FAILURE
        }
    }
}
