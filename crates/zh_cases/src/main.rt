//! Makes the turns of cases that are no runs of `zhcount`. `tests/cases.py` reads the cases (docs/CASES.md), sends each turn and
//! compares its answer.
//!
//! The arguments name files with set-ups; `rehearsal` is the set-up of the rehearsal. Each line of standard input is a turn,
//! and its answer is a line of standard output. If a turn can't be made, the reason goes to standard error, and the status is 1.
#![tactic(auto)]

mod answer;
mod disk;
mod fault;
mod fixture;
mod numbers;
mod office;
mod question;
mod reason;
mod streams;
mod texts;
mod turn;

use fault::CaseFault;
use fixture::Fixture;
use std::process::ExitCode;
use std::{env, fs};
use turn::make;
use zh_districts::Setup;
use zh_setups::{read_setup, rehearsal};

fn main(rt: HostRuntime) -> ExitCode {
    match run(&rt) {
        Ok(()) => ExitCode::SUCCESS,
        Err(fault) => {
            let _ = eprintln!(rt; "{fault}");
            ExitCode::FAILURE
        }
    }
}

/// The set-up in the file with this name, or that of the rehearsal.
fn setup_of(rt: &HostRuntime, name: &str) -> Result<Setup, CaseFault> {
    if name == "rehearsal" {
        return Ok(rehearsal(rt.alloc())?);
    }
    match read_setup(rt.alloc(), &fs::read(rt, name)?) {
        Ok(setup) => Ok(setup),
        Err(_) => Err(CaseFault::Text("this is no set-up")),
    }
}

/// The set-ups that the arguments name.
fn setups_of(rt: &HostRuntime) -> Result<Vec<Setup>, CaseFault> {
    let mut setups = Vec::new(rt.alloc());
    for name in env::args(rt)?.skip(1) {
        setups.push(setup_of(rt, name.as_str())?)?;
    }
    Ok(setups)
}

/// Makes a turn and prints its answer.
fn make_turn(rt: &HostRuntime, fixture: &mut Fixture<'_>, turn: &str) -> Result<(), CaseFault> {
    let mut answer = String::new(rt.alloc());
    make(fixture, turn, &mut answer)?;
    println!(rt; "{answer}")?;
    Ok(())
}

/// Makes the turns of standard input.
fn make_turns(rt: &HostRuntime, fixture: &mut Fixture<'_>) -> Result<(), CaseFault> {
    for line in rt.lines(rt.alloc()) {
        make_turn(rt, fixture, line?.as_str())?;
    }
    Ok(())
}

/// Makes the turns of standard input with these set-ups.
fn make_with(rt: &HostRuntime, setups: &[Setup]) -> Result<(), CaseFault> {
    make_turns(rt, &mut Fixture::new(rt, setups)?)
}

fn run(rt: &HostRuntime) -> Result<(), CaseFault> {
    make_with(rt, &setups_of(rt)?)
}
