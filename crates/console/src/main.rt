// The console: a script from standard input, a command a line, rehearsed on a simulated chip.
// A command's reading, doing and answer are the libraries'; here is only what reaches outside.
#![tactic(auto)]

use command::{Command, read};
use simulation::obey::obey;
use simulation::setup::Setup;
use std::io::BufRead;
use std::{fs, io, str};

fn main(rt: HostRuntime) -> io::Result<()> {
    let mut setup = Setup::new();
    for (number, line) in (1..).zip(rt.reader().split(rt.alloc(), b'\n')) {
        answer(&rt, &mut setup, number, line?.as_slice())?;
    }
    Ok(())
}

// Prints what comes of one line: what was done, a refusal, or what was expected in its place.
fn answer(rt: &HostRuntime, setup: &mut Setup, number: usize, line: &[u8]) -> io::Result<()> {
    match read(line) {
        Ok(Command::Nothing) => Ok(()),
        Ok(Command::Map { file }) => match file_bytes(rt, file) {
            Some(bytes) => perform(rt, setup, Command::Map { file }, bytes.as_slice()),
            None => println!(rt; "line {number}: expected: a file that can be read"),
        },
        Ok(command) => perform(rt, setup, command, &[]),
        Err(mistake) => println!(rt; "line {number}: {mistake}"),
    }
}

fn perform(
    rt: &HostRuntime,
    setup: &mut Setup,
    command: Command<'_>,
    file: &[u8],
) -> io::Result<()> {
    match obey(setup, rt.alloc(), command, file) {
        Ok(reply) => println!(rt; "{reply}"),
        Err(refusal) => println!(rt; "{refusal}"),
    }
}

// What the file of that name holds, if there is one to read.
fn file_bytes(rt: &HostRuntime, name: &[u8]) -> Option<Vec<u8>> {
    let path = str::from_utf8(name).ok()?;
    fs::read(rt, path).ok()
}
