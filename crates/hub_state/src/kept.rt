// The hub as a turn lock keeps it.
use crate::hub::Hub;
use crate::journal_rules::Entry;
use hub_lock::Kept;
use rel_formula::Problem;
use std::marker::Model;
use std::sync::Arc;
use translation::Translation;

/// What a pass knows of an entry that it has seen: of a publication also the translation. No value of this type is ever
/// made: it is what contracts of the turn lock speak of.
pub struct SeenEntry {
    pub entry: Entry,
    pub translation: Option<Arc<Translation>>,
}

impl Model for SeenEntry {
    ghost use Rattle.std.specs.Coded.{codes};
    ghost use Rattle.rel_formula.specs.Code.{formula_code};
    ghost use Rattle.hub_state.specs.Journal.Noted.{Noted};
    ghost use Rattle.translation_cache.specs.Published.{shown};
    ghost use Rattle.hub_state.specs.Held.{translation_or, noted_with};

    ghost Value = { Noted };

    ghost coded = { Prim.hlevel (codes, formula_code) };

    ghost view = { λ x. noted_with (λ _. translation_or (shown x.translation)) x.entry };
}

// A pass knows the journal with its translations; what stays is the list of the problems.
impl Kept for Hub {
    type Entry = SeenEntry;

    type Base = [Problem; 0];

    ghost by = { λ x. x.by };

    ghost entries = { λ h. h.journal };

    ghost base = { λ h. h.problems };

    fn count(&self) -> u64 {
        self.journal().len() as u64
    }
}
