//! Which field each shared name of a resolved tree is, by the top-level signatures that fit in its place: the tree in
//! which each of them is one field, and what its parts are, or the first fault. The modules have the types of
//! expressions, the names that fields share, and what parts stand in.
#![tactic(auto)]

pub mod expression_types;
pub mod settled_parts;
pub mod settling_rules;
pub mod shared_fields;
pub mod shared_names;
pub mod typed_scopes;
