//! Tests of `alloy_lex`, `alloy_parse` and `order_lib`: which tokens a text has, how deep constructs nest, which parts of the
//! language are refused by name, and what orderings make of a model. The tokens, faults and places were worked out by hand.
#![tactic(auto)]

#[cfg(test)]
mod of_alloy_lex;
#[cfg(test)]
mod of_depths;
#[cfg(test)]
mod of_order_lib;
#[cfg(test)]
mod of_refused_constructs;
#[cfg(test)]
mod reading;
