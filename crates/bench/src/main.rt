//! What the crates do in a second: each pair of words is the name of a measure and a count, and the line that is printed
//! says what was made or found. Time it from outside; `docs/BENCHMARKS.md` says how.
#![tactic(auto)]

mod conditions;
mod found;
mod gates;
mod journals;
mod pools;
mod powers;
mod proof_texts;
mod refutations;
mod texts;
mod translations;
mod turns;

use crate::found::Found;
use std::alloc::{AllocError, Global};
use std::sync::Wait;
use std::thread::Threads;
use std::{env, io};

fn main(rt: HostRuntime) -> io::Result<()> {
    let mut words = Vec::new(rt.alloc());
    for word in env::args(&rt)?.skip(1) {
        words.push(word)?;
    }
    for pair in words.chunks_exact(2) {
        let found = measured(&rt, rt.alloc(), pair[0].as_str(), pair[1].as_str())?;
        match found {
            Some(found) => println!(rt; "{} {} {found}", pair[0], pair[1])?,
            None => println!(rt; "{} {} is no measure", pair[0], pair[1])?,
        }
    }
    Ok(())
}

// What a measure makes or finds at a count.
fn measured<R: Threads + Wait + Sync>(
    rt: &R,
    alloc: Global,
    name: &str,
    count: &str,
) -> Result<Option<Found>, AllocError> {
    let Ok(count) = count.parse::<u32>() else {
        return Ok(None);
    };
    if let Some(number) = number_of(alloc, name, count)? {
        return Ok(Some(Found::Number(number)));
    }
    if let Some(turns) = turns_of(rt, alloc, name, count)? {
        return Ok(Some(Found::Number(turns)));
    }
    Ok(translations::found(alloc, name, count)?)
}

// The number that a measure gives at a count.
fn number_of(alloc: Global, name: &str, count: u32) -> Result<Option<u32>, AllocError> {
    match name {
        "gates" => Ok(Some(gates::made(alloc, count)?)),
        "clauses" => Ok(Some(gates::clauses(alloc, count)?)),
        "hints" => Ok(refutations::failing_step(alloc, count)?),
        "lex" => Ok(texts::tokens(alloc, count)?),
        "parse" => Ok(texts::paragraphs(alloc, count)?),
        "read_proof" => Ok(proof_texts::read(alloc, count)?),
        "proof_text" => Ok(proof_texts::made(alloc, count)?),
        "check_proof" => Ok(proof_texts::checked(alloc, count)?),
        "free" => Ok(pools::freed(alloc, count)?),
        "share" => Ok(pools::shared(alloc, count)?),
        "record" => Ok(Some(journals::recorded(alloc, count)?)),
        _ => Ok(None),
    }
}

// The turns of so many workers.
fn turns_of<R: Threads + Wait + Sync>(
    rt: &R,
    alloc: Global,
    name: &str,
    count: u32,
) -> Result<Option<u32>, AllocError> {
    match name {
        "turns" => Ok(Some(turns::taken(rt, alloc, 1, count)?)),
        "turns_of_two" => Ok(Some(turns::taken(rt, alloc, 2, count)?)),
        "turns_of_four" => Ok(Some(turns::taken(rt, alloc, 4, count)?)),
        _ => Ok(None),
    }
}
