//! Translations of small problems, for tests.

mod made;

pub use crate::sample_translations::made::{translated_sets, translation_of};
