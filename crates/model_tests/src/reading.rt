// Models read from texts.
use alloy_lex::lex;
use alloy_parse::parse;
use alloy_syntax::tree::Model;
use named_model::Named;
use sig_resolve::resolve;
use std::alloc::Global;

/// The tree of a text, if it is a model's.
pub fn tree(alloc: Global, text: &str) -> Option<Model> {
    if text.len() > 1_048_576 {
        return None;
    }
    match lex(alloc, text) {
        Ok(tokens) => parse(alloc, &tokens).ok(),
        Err(_) => None,
    }
}

/// The model of a text with its names, if it has no fault.
pub fn named(alloc: Global, text: &str) -> Option<Named> {
    match tree(alloc, text) {
        Some(model) => resolve(alloc, &model).ok(),
        None => None,
    }
}
