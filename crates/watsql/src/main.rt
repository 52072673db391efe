//! watsql: makes a database, and runs a script over its tables and its log.
#![tactic(auto)]

mod advice;

use crate::advice::{advice, commands};
use std::process::ExitCode;
use std::{env, fs, io, process};
use wat_folder::FileDisk;
use wat_io::{FileScripts, FreeGate, OutSink};
use wat_list::NoMemory;
use wat_tool::{exit_code, report, run, words_of};

// Tells it to whoever typed the command. That it can't be told changes nothing of what was done.
fn tell(rt: &impl Eprint, text: Result<String, NoMemory>) {
    if let Ok(text) = text {
        let _ = eprint!(rt; "{text}");
    }
}

fn main(rt: HostRuntime) -> ExitCode {
    // The number of a closed standard stream would go to the next file that is opened, and the answers into that file.
    let _streams = [
        fs::open(&rt, "/dev/null"),
        fs::open(&rt, "/dev/null"),
        fs::open(&rt, "/dev/null"),
    ];
    let alloc = rt.alloc();
    let mut out = OutSink::new(io::writer(&rt));
    let words = match words_of(alloc, env::args(&rt)) {
        Ok(words) => words,
        Err(fault) => {
            tell(&rt, commands(alloc));
            return exit_code(report(alloc, &Err(fault), &mut out));
        }
    };
    let mut scripts = FileScripts::new(&rt);
    let disk = FileDisk::new(&rt, alloc, process::id(rt.process()));
    let finish = run(&rt, alloc, &words, &mut scripts, disk, &FreeGate, &mut out);
    let holder = finish.disk.holder();
    tell(
        &rt,
        advice(alloc, &words, &finish.outcome, &finish.session, holder),
    );
    exit_code(finish.status)
}
