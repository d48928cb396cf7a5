//! Tests of `model_texts` and `served_models`: what is told of a model's text, and which of its commands are served; and of the
//! texts that `bench_texts` makes. The places of faults were worked out by hand from the language's rules.
#![tactic(auto)]

#[cfg(test)]
mod of_bad_input;
#[cfg(test)]
mod of_bench_texts;
#[cfg(test)]
mod of_fault_words;
#[cfg(test)]
mod of_models;
#[cfg(test)]
mod of_names;
#[cfg(test)]
mod of_orders;
#[cfg(test)]
mod of_served_models;
#[cfg(test)]
mod of_shared_names;
#[cfg(test)]
mod of_texts;
#[cfg(test)]
mod of_types;
#[cfg(test)]
mod reading;
