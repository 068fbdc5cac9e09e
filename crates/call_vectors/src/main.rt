// Carries out the script that stands in its standard input, a line at a time, and prints the answer to each line that asks
// something. vectors/calls.py says what a script is, and makes this one and its answers.
#![tactic(auto)]

mod bytes;
mod command;
mod desk;
mod show;
mod trouble;

use command::understood;
use desk::Desk;
use std::io::{BufRead, BufReader};
use trouble::Trouble;

fn main(rt: HostRuntime) -> Result<(), Trouble> {
    let mut desk = Desk::new(rt.alloc());
    for line in BufReader::new(rt.alloc(), rt.stdin())?.lines(rt.alloc()) {
        let line = line?;
        desk.carry_out(&rt, line.as_str(), understood(line.as_str()))?;
    }
    Ok(())
}
