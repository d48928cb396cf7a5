//! How fast the solver is, and descents and offers over it: each four words are what is done, the kind of clauses or of a problem, and
//! two numbers, the size and a seed. The line that is printed says what was found, and with how much work; `docs/BENCHMARKS.md` says
//! how to time it from outside.
#![tactic(auto)]

mod asked;
mod calls;
mod descents;
mod dimacs;
mod effort;
mod formulas;
mod found;
mod searches;
mod sets;

use crate::found::Found;
use std::alloc::{AllocError, Global};
use std::{env, io};

fn main(rt: HostRuntime) -> io::Result<()> {
    let mut words = Vec::new(rt.alloc());
    for word in env::args(&rt)?.skip(1) {
        words.push(word)?;
    }
    for line in words.chunks_exact(4) {
        let found = measured(
            rt.alloc(),
            line[0].as_str(),
            line[1].as_str(),
            line[2].as_str(),
            line[3].as_str(),
        )?;
        match found {
            Some(Found::Text(text)) => print!(rt; "{text}")?,
            Some(found) => println!(rt;
                "{} {} {} {}: {found}",
                line[0], line[1], line[2], line[3]
            )?,
            None => println!(rt;
                "{} {} {} {}: no measure",
                line[0], line[1], line[2], line[3]
            )?,
        }
    }
    Ok(())
}

// What is found where this is done with clauses or a problem of this kind.
fn measured(
    alloc: Global,
    done: &str,
    kind: &str,
    size: &str,
    seed: &str,
) -> Result<Option<Found>, AllocError> {
    let Ok(size) = size.parse::<u32>() else {
        return Ok(None);
    };
    let Ok(seed) = seed.parse::<u32>() else {
        return Ok(None);
    };
    match kind {
        "calls" => Ok(calls::found(alloc, done, size, seed)?),
        "sets" => Ok(descents::found(alloc, done, size)?),
        _ => Ok(searches::found(alloc, done, kind, size, seed)?),
    }
}
