// The first translation of each key.
ghost use Rattle.std.specs.Prelude.{◌≡◌, ◌<◌, Some, None, IfOk, OnOk, OnErr, length, replicate, slice_index_or, slice_set};
ghost use Rattle.translation_cache.specs.Published.{shown, first_of};

use std::alloc::{AllocError, Global};
use std::marker::Model;
use std::sync::Arc;
use translation::Translation;

/// For each key, from 0 on, the translation that was published first, if any. Contracts see one entry a key: what they see of
/// that translation, or none.
#[derive(Drop)]
pub struct Cache {
    kept: Vec<Option<Arc<Translation>>>,
}

impl Model for Cache {
    ghost use Rattle.std.specs.Coded.{codes};
    ghost use Rattle.std.specs.Prelude.{List, Option, map};
    ghost use Rattle.rel_formula.specs.Code.{formula_code};
    ghost use Rattle.translation_rules.specs.Translation.{Translated};
    ghost use Rattle.translation_cache.specs.Published.{shown};

    ghost Value = { List (Option Translated) };

    ghost coded = { Prim.hlevel (codes, formula_code) };

    ghost view = { λ c. map shown c.kept.items };
}

impl Cache {
    /// Nothing published yet, for so many keys.
    pub fn new(alloc: Global, keys: u32) -> Result<Cache, AllocError>
        ensures { IfOk result (λ c. c ≡ replicate keys None) }
    {
        let mut kept = Vec::with_capacity(alloc, keys as usize)?;
        for key in 0..keys {
            let _ = key; // for the proof
            kept.push(None)?;
        }
        Ok(Cache { kept })
    }

    /// The key's translation, or none where nothing was published for it. The key is below the number of keys.
    pub fn find(&self, key: u32) -> Result<Option<Arc<Translation>>, AllocError>
        requires { key < length self.now }
        ensures { IfOk result (λ found. shown found ≡ slice_index_or self.now key None) }
    {
        match &self.kept[key as usize] {
            None => Ok(None),
            Some(first) => Ok(Some(Arc::try_clone(first)?)),
        }
    }

    /// Keeps the translation for the key, which is below the number of keys, where nothing was published for it before.
    /// Answers the one that is kept. After an error the cache is as before.
    pub fn publish(&mut self, key: u32, t: Arc<Translation>) -> Result<Arc<Translation>, AllocError>
        requires { key < length self.old }
        ensures first { IfOk result (λ kept. kept.value ≡ first_of self.old key t.value) }
        ensures kept { OnOk result (self.new ≡ slice_set self.old key (Some (first_of self.old key t.value))) }
        ensures err { OnErr result (self.new ≡ self.old) }
    {
        if let Some(first) = self.find(key)? {
            return Ok(first);
        }
        let kept = Arc::try_clone(&t)?;
        self.kept[key as usize] = Some(t);
        Ok(kept)
    }
}
