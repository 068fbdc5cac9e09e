// The program of the volunteers: it reads a family tree and says what it finds. Everything that matters is in the library
// crates; here are the arguments, the files and the words.
#![tactic(auto)]

mod failure;
mod messages;
mod report;

use books::Shelf;
use characters::{ByteFault, LIMIT};
use failure::Failure;
use lines::LineFault;
use model::{Card, MOST};
use reading::{ReadFault, read};
use std::process::ExitCode;
use std::{env, fs};

const USAGE: &str = "usage: intake check [--book home|plain|open] FILE
  check FILE    reads a family tree against a book of rules, and reports what it has
  --book NAME   the book: home, plain, which takes any tag, or open, which is home with further tags";

// The bytes of a file, or why there are none.
fn load(rt: &HostRuntime, path: &str) -> Result<Vec<u8>, Failure> {
    let found = fs::metadata(rt, path).map_err(|_| Failure::Missing)?;
    if found.is_dir() {
        return Err(Failure::Folder);
    }
    if found.len() > LIMIT as u64 {
        return Err(ReadFault::from(LineFault::from(ByteFault::TooLong)).into());
    }
    fs::read(rt, path).map_err(|_| Failure::Unreadable)
}

fn check(rt: &HostRuntime, shelf: Shelf, path: &str) -> Result<(), Failure> {
    let file = load(rt, path)?;
    let counts = lines::check(&file).map_err(ReadFault::from)?;
    let mut drawer = vec![in rt.alloc(); Card::BLANK; MOST]?;
    let count = read(&file, &mut drawer, &shelf)?;
    report::file_told(rt, path, &file, counts)?;
    report::tree_told(
        rt,
        shelf,
        &file,
        &drawer.as_slice()[..count.min(drawer.len())],
    )
}

fn run(rt: &HostRuntime, words: &[String]) -> Result<(), Failure> {
    match words {
        [] | [_] => {
            rt.println(USAGE)?;
            Ok(())
        }
        [_, command, path] if command.as_str() == "check" => check(rt, Shelf::Home, path.as_str()),
        [_, command, option, name, path]
            if command.as_str() == "check" && option.as_str() == "--book" => check(
            rt,
            name.as_str().parse::<Shelf>()?,
            path.as_str(),
        ),
        _ => Err(Failure::Usage),
    }
}

// One line on standard error; trouble with a file names it.
fn tell(rt: &HostRuntime, words: &[String], failure: Failure) -> Result<(), Failure> {
    match words.last() {
        Some(path) if failure.is_of_file() => eprintln!(rt; "intake: {path}: {failure}")?,
        _ => eprintln!(rt; "{failure}")?,
    }
    Err(failure)
}

fn answer(rt: &HostRuntime) -> Result<(), Failure> {
    let words: Vec<String> = env::args(rt)?.collect(rt.alloc())?;
    match run(rt, &words) {
        Ok(()) => Ok(()),
        Err(failure) => tell(rt, &words, failure),
    }
}

// What can be told of a failure was told by then, in one line.
fn main(rt: HostRuntime) -> ExitCode {
    match answer(&rt) {
        Ok(()) => ExitCode::SUCCESS,
        Err(_) => ExitCode::FAILURE,
    }
}
