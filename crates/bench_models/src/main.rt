//! What a model costs before any search: each three words are how far it is brought, the kind of its text, and how large this is.
//! The line that is printed says what was read or made. Time it from outside; `docs/BENCHMARKS.md` says how.
#![tactic(auto)]

mod found;
mod readings;

use crate::found::Found;
use crate::readings::found;
use bench_texts::{stage_of, text_of};
use std::alloc::{AllocError, Global};
use std::{env, io};

fn main(rt: HostRuntime) -> io::Result<()> {
    let mut words = Vec::new(rt.alloc());
    for word in env::args(&rt)?.skip(1) {
        words.push(word)?;
    }
    for line in words.chunks_exact(3) {
        let measured = measured(
            rt.alloc(),
            line[0].as_str(),
            line[1].as_str(),
            line[2].as_str(),
        )?;
        match measured {
            Some((bytes, found)) => println!(rt;
                "{} {} {}: {bytes} bytes, {found}",
                line[0], line[1], line[2]
            )?,
            None => println!(rt; "{} {} {}: no measure", line[0], line[1], line[2])?,
        }
    }
    Ok(())
}

// How many bytes the text of this kind has, and what is found where it is brought so far.
fn measured(
    alloc: Global,
    stage: &str,
    kind: &str,
    count: &str,
) -> Result<Option<(usize, Found)>, AllocError> {
    let Ok(count) = count.parse::<u32>() else {
        return Ok(None);
    };
    let Some(stage) = stage_of(stage) else {
        return Ok(None);
    };
    let Some(text) = text_of(alloc, kind, count)? else {
        return Ok(None);
    };
    let found = found(alloc, stage, text.as_str());
    Ok(found.map(|found| (text.len(), found)))
}
