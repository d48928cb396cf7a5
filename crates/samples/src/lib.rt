//! Small symmetric problems and their translations, for tests. The module `exhaustive_search` finds by trying all sets
//! of cells what searches must find.
#![tactic(auto)]

pub mod exhaustive_search;
pub mod sample_links;
pub mod sample_translations;
