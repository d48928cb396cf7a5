// Reading texts: tokens, and the paragraphs of models.
use alloy_lex::lex;
use alloy_parse::{ParseFault, parse};
use std::alloc::{AllocError, Global};

// How many lines a text has at most.
const PAGE: u32 = 16_384;

// The lines of a model, over and over.
const LINES: [&str; 8] = [
    "module family // who descends from whom\n",
    "abstract sig Person { father: lone Man, mother: lone Woman }\n",
    "sig Man, Woman extends Person { friends: set Person }\n",
    "fact Biology { no p: Person | p in p.^(mother + father) }\n",
    "pred related [p, q: Person] { some p.*father & q.*father }\n",
    "    all disj p, q: Person | related[p, q] => p.father = q.father\n",
    "/* each marries once */ assert Once { #Man <= 3 || no Woman }\n",
    "run related for exactly 3 Man, 2 Woman, 7 Person expect 1\n",
];

// The paragraphs of a model, over and over.
const PARAGRAPHS: [&str; 8] = [
    "abstract sig Person { father: lone Man, mother: lone Woman }\n",
    "sig Man, Woman extends Person { friends: set Person }\n",
    "fact Biology { no p: Person | p in p.^(mother + father) }\n",
    "pred related [p, q: Person] { some p.*father & q.*father }\n",
    "fact { all disj p, q: Person | related[p, q] => p.father = q.father }\n",
    "fun parents [p: Person]: set Person { p.mother + p.father }\n",
    "assert Once { #Man <= 3 || no Woman }\n",
    "run related for exactly 3 Man, 2 Woman, 7 Person expect 1\n",
];

/// Lexes so many lines, in texts of a page each, and gives the number of tokens.
pub fn tokens(alloc: Global, lines: u32) -> Result<Option<u32>, AllocError> {
    let mut count = 0_u32;
    for _ in 0..lines / PAGE {
        let Some(more) = tokens_of_page(alloc, PAGE)? else {
            return Ok(None);
        };
        count = count.saturating_add(more);
    }
    let Some(more) = tokens_of_page(alloc, lines % PAGE)? else {
        return Ok(None);
    };
    Ok(Some(count.saturating_add(more)))
}

fn tokens_of_page(alloc: Global, lines: u32) -> Result<Option<u32>, AllocError> {
    let text = page(alloc, &LINES, lines)?;
    if text.len() > 1_048_576 {
        return Ok(None);
    }
    match lex(alloc, text.as_str()) {
        Ok(tokens) => Ok(Some(tokens.len() as u32)),
        Err(_) => Ok(None),
    }
}

/// Parses so many paragraphs, in texts of a page each, and gives the number of those that were read.
pub fn paragraphs(alloc: Global, count: u32) -> Result<Option<u32>, AllocError> {
    let mut read = 0_u32;
    for _ in 0..count / PAGE {
        let Some(more) = paragraphs_of_page(alloc, PAGE)? else {
            return Ok(None);
        };
        read = read.saturating_add(more);
    }
    let Some(more) = paragraphs_of_page(alloc, count % PAGE)? else {
        return Ok(None);
    };
    Ok(Some(read.saturating_add(more)))
}

fn paragraphs_of_page(alloc: Global, lines: u32) -> Result<Option<u32>, AllocError> {
    let text = page(alloc, &PARAGRAPHS, lines)?;
    if text.len() > 1_048_576 {
        return Ok(None);
    }
    let Ok(tokens) = lex(alloc, text.as_str()) else {
        return Ok(None);
    };
    match parse(alloc, &tokens) {
        Ok(model) => Ok(Some(model.paragraphs.len().min(PAGE as usize) as u32)),
        Err(ParseFault::Memory) => Err(AllocError),
        Err(_) => Ok(None),
    }
}

fn page(alloc: Global, pieces: &[&str; 8], lines: u32) -> Result<String, AllocError> {
    let mut text = String::new(alloc);
    for i in 0..lines {
        text.push_str(pieces[(i % 8) as usize])?;
    }
    Ok(text)
}
