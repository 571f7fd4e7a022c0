// soak: the margins of rules over a soak of the detector heads.
#![tactic(auto)]

mod check;
mod command;
mod example;
mod failure;
mod files;
mod margins;
mod progress;
mod question;
mod site;
mod written;

use command::{Command, USAGE};
use failure::Failure;
use std::env;

fn run(rt: &HostRuntime) -> Result<(), Failure> {
    let words: Vec<String> = env::args(rt)?
        .collect(rt.alloc())
        .map_err(|_| Failure::Memory)?;
    match Command::of(words.get(1..).unwrap_or(&[])) {
        Some(Command::Example) => example::show(rt),
        Some(Command::Check { sheet }) => check::check(rt, sheet),
        Some(Command::Soak(job)) => margins::run(rt, job),
        None => {
            eprintln!(rt; "{USAGE}")?;
            Err(Failure::Words)
        }
    }
}

fn main(rt: HostRuntime) -> Result<(), Failure> {
    let result = run(&rt);
    if let Err(failure) = &result {
        let _ = eprintln!(rt; "soak: {failure}");
    }
    result
}
