//! What is decided of a command's problem by searches: whether it has an instance, and so whether an assertion holds; and which
//! facts can't all be true under it, where some can't. And what is told of that for the commands of a script's models: all models are
//! read first, and each command that is taken is lowered, so that what is refused is told before anything is searched.
#![tactic(auto)]

pub mod assertions;
pub mod decision;
pub mod decision_laws;
pub mod fact_sets;
pub mod laws;
pub mod needed_facts;
pub mod taken_models;
