//! Takes the steps of a file one after another, and prints what each one comes to: tables and
//! indexes made, looked for, and listed for a schema to be made of again.
#![tactic(auto)]

mod base;
mod making;

use crate::base::Base;
use std::alloc::Global;
use std::fs;

fn said(
    alloc: Global,
    base: &mut Base,
    step: &str,
    table: u32,
    number: u8,
    text: &str,
) -> anyhow::Result<String> {
    match step {
        "of" => return Ok(base.of_lists(alloc, table)?),
        "again" => return Ok(base.again(alloc)?),
        "show" => return Ok(base.shown(alloc)?),
        _ => {}
    }
    if let Some(said) = base.change(alloc, step, table, number, text)? {
        return Ok(said);
    }
    if let Some(said) = base.found(alloc, step, table, number, text)? {
        return Ok(said);
    }
    if let Some(said) = base.broken(alloc, step, table, text)? {
        return Ok(said);
    }
    if base.list(alloc, step, table, number, text)? {
        Ok(String::from_str(alloc, "listed")?)
    } else {
        Ok(String::from_str(alloc, "no step")?)
    }
}

fn take(alloc: Global, base: &mut Base, line: &str) -> anyhow::Result<String> {
    let words: Vec<&str> = line.split_whitespace().collect(alloc)?;
    match *words {
        [step, table, number, text] => {
            let table: u32 = table.parse()?;
            let number: u8 = number.parse()?;
            said(alloc, base, step, table, number, text)
        }
        _ => Ok(String::from_str(alloc, "no step")?),
    }
}

fn main(rt: HostRuntime) -> anyhow::Result<()> {
    let alloc = rt.alloc();
    let text = fs::read_to_string(&rt, "steps.txt")?;
    let mut base = Base::new(alloc);
    for line in text.as_str().lines() {
        let said = take(alloc, &mut base, line)?;
        println!(rt; "{line}: {said}")?;
    }
    Ok(())
}
