//! What a text of the grammar is: how each tree is spelled, how deep its constructs nest, and which forms it has that the language
//! refuses. It doesn't say how a text is read; laws tie reading to it, and say of the place where reading stops what the text lacks.
#![tactic(auto)]

pub mod fault_places;
pub mod laws;
pub mod refused_tokens;
pub mod viable_prefixes;
