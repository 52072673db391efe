//! Puts rows of 20 and of 1,000 bytes on pages, reads each one back, and prints how many it found. With a word on the command line
//! it goes on to 100,000 rows, and prints how long each took, too.
#![tactic(auto)]

mod rows;

use crate::rows::found;
use std::time::Instant;
use std::{env, io};

fn main(rt: HostRuntime) -> io::Result<()> {
    let alloc = rt.alloc();
    let mut timed = false;
    for _word in env::args(&rt)?.skip(1) {
        timed = true;
    }
    for count in [1_000, 10_000, 100_000] {
        if count > 10_000 && !timed {
            return Ok(());
        }
        for (size, len) in [(20, 6), (1_000, 986)] {
            let start = Instant::now(&rt)?;
            let found = found(alloc, count, len)?;
            let took = start.elapsed(&rt)?.as_micros();
            println!(rt; "{count} rows of {size} bytes: {found:?} found")?;
            if timed {
                println!(rt; "    in {took} us")?;
            }
        }
    }
    Ok(())
}
