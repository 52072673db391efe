//! Computes chains of a million operators, answers three queries over more and more combinations, and
//! prints what it finds: a chain takes little of the stack, however long it is. With a word on the
//! command line it prints how long each query took, too.
#![tactic(auto)]

mod chains;
mod queries;
mod tables;

use crate::chains::{joined_length, sum};
use crate::queries::{grouped, ordered};
use crate::tables::{combinations, defs};
use std::time::Instant;
use std::{env, io};
use wat_group::{Finished, finish};

fn rows_of(finished: &Finished) -> usize {
    match finished {
        Finished::Rows(rows) => rows.len(),
        Finished::Arithmetic => 0,
    }
}

fn main(rt: HostRuntime) -> io::Result<()> {
    let alloc = rt.alloc();
    let mut timed = false;
    for _word in env::args(&rt)?.skip(1) {
        timed = true;
    }
    let sum = sum(alloc, 1_000_000)?;
    let length = joined_length(alloc, 1_000_000)?;
    println!(rt; "a million operators: {sum:?}, {length:?}")?;
    let defs = defs(alloc)?;
    for count in [1_000, 10_000, 100_000] {
        let met = combinations(alloc, count)?;
        let queries = [
            ("ORDER BY", ordered(alloc, false)?),
            ("DISTINCT and ORDER BY", ordered(alloc, true)?),
            ("GROUP BY and ORDER BY", grouped(alloc)?),
        ];
        for (name, query) in &queries {
            let start = Instant::now(&rt)?;
            let finished = finish(alloc, query, &defs, &met)?;
            let took = start.elapsed(&rt)?.as_micros();
            let found = rows_of(&finished);
            println!(rt; "{count} combinations, {name}: {found} rows")?;
            if timed {
                println!(rt; "    in {took} us")?;
            }
        }
    }
    Ok(())
}
