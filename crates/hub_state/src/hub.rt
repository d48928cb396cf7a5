// The hub.
ghost use Rattle.std.specs.Prelude.{◌≡◌, ◌↔◌, ◌<◌, ◌^◌, [], Some, IfOk, OnOk, OnErr, IfSome, IsNone, IsSomeAnd, length, map, replicate, slice_get, take};
ghost use mathlib.Core.List.{IsPrefix};
ghost use Rattle.clause_pool.specs.Limits.{IsLongestFit};
ghost use Rattle.translation_rules.specs.Translation.{Translated};
ghost use Rattle.hub_state.specs.Journal.Noted.{Published as WasPublished, Imported as WasImported, Shared as WasShared, entry_of};
ghost use Rattle.hub_state.specs.Journal.Journal.{IsLegal, IsPublished, MayFollow, pool_of};
ghost use Rattle.hub_state.specs.HubView.{with_entry, HasTranslation, IsPublishing, GoesOn, moved, note_to_record};

use crate::journal_rules::laws::{a_legal_journal_grows, a_pool_rests_on_the_translation_alone};
use crate::journal_rules::{Entry, Event};
use crate::new_steps::put_behind;
use clause_pool::{Pool, one_length_is_longest};
use refutation_check::Log;
use rel_formula::Problem;
use std::alloc::{AllocError, Global};
use std::marker::Model;
use std::sync::Arc;
use translation::Translation;
use translation_cache::Cache;

/// Problems by key, from 0 on; the translation and the pool of each; and the journal. Contracts see the problems and the
/// journal, where a publication has its translation.
#[derive(Drop)]
pub struct Hub {
    problems: Vec<Problem>,
    entries: Vec<Entry>,
    cache: Cache,
    pools: Vec<Pool>,
}

impl Model for Hub {
    ghost use Rattle.std.specs.Coded.{codes};
    ghost use Rattle.rel_formula.specs.Code.{formula_code};
    ghost use Rattle.hub_state.specs.HubView.{HubView};
    ghost use Rattle.hub_state.specs.Held.{journal_of, IsHub};

    ghost Value = { HubView };

    ghost coded = { Prim.hlevel (codes, formula_code) };

    ghost view = { λ h. record { problems = h.problems.items; journal = journal_of h.cache h.entries.items } };

    ghost invariant = { λ h. IsHub h.problems.items h.cache h.pools.items (journal_of h.cache h.entries.items) };
}

impl Hub {
    /// A hub of these problems, with nothing done yet. There are at most 4,294,967,295.
    pub fn new(alloc: Global, problems: Vec<Problem>) -> Result<Hub, AllocError>
        requires { length problems.items < 2 ^ 32 }
        ensures { IfOk result (λ h. h ≡ record { problems = problems.items; journal = [] }) }
    {
        a_legal_journal_grows();
        let keys = problems.len() as u32;
        let cache = Cache::new(alloc, keys)?;
        let pools = empty_pools(alloc, keys)?;
        Ok(Hub {
            problems,
            entries: Vec::new(alloc),
            cache,
            pools,
        })
    }

    /// The problem of a key, which is below the number of problems.
    pub fn problem(&self, key: u32) -> &Problem
        requires { key < length self.now.problems }
        ensures { slice_get self.now.problems key ≡ Some result.now }
    {
        &self.problems[key as usize]
    }

    /// The key's translation, or none where nothing was published for the key, which is below the number of problems.
    pub fn find(&self, key: u32) -> Result<Option<Arc<Translation>>, AllocError>
        requires { key < length self.now.problems }
        ensures none { IfOk result (λ found. IsNone found ↔ (¬ HasTranslation self.now.journal key)) }
        ensures found { IfOk result (λ found. IfSome found (λ t. IsPublished self.now.journal key t.value)) }
    {
        Ok(self.cache.find(key)?)
    }

    /// Publishes the translation of the key's problem, and answers the key's translation: the first that was published.
    /// Appends an entry where there was none. After an error the hub is as before.
    pub fn publish(
        &mut self,
        by: u32,
        key: u32,
        t: Arc<Translation>,
    ) -> Result<Arc<Translation>, AllocError>
        requires { slice_get self.old.problems key ≡ Some t.value.problem }
        ensures entry { IfOk result (λ kept. IsPublishing self.old by key t.value self.new kept.value) }
        ensures kept { IfOk result (λ kept. IsPublished self.new.journal key kept.value) }
        ensures err { OnErr result (self.new ≡ self.old) }
    {
        a_legal_journal_grows();
        let _ = t.problem(); // for the proof
        if let Some(first) = self.cache.find(key)? {
            return Ok(first);
        }
        self.entries.reserve(1)?;
        let kept = self.cache.publish(key, t)?;
        self.entries.push_reserved(Entry {
            by,
            event: Event::Published { key },
        });
        Ok(kept)
    }

    /// The whole pool of a key that has its translation. Appends an entry that names the pool's length. After an error the
    /// hub is as before.
    pub fn import(&mut self, alloc: Global, by: u32, key: u32) -> Result<Log, AllocError>
        requires { HasTranslation self.old.journal key }
        ensures pool { IfOk result (λ pool. pool ≡ pool_of key self.old.journal) }
        ensures entry { OnOk result (self.new ≡ with_entry self.old by (WasImported key (length (pool_of key self.old.journal)))) }
        ensures err { OnErr result (self.new ≡ self.old) }
    {
        let mut whole = Log::new(alloc);
        self.import_behind(alloc, by, key, &mut whole)?;
        Ok(whole)
    }

    /// Puts behind steps that begin the pool of a key that has its translation all that came since: so they are the whole pool.
    /// Appends an entry that names the pool's length. After an error the hub is as before, and a part of what came since may
    /// have been put there.
    pub fn import_behind(
        &mut self,
        alloc: Global,
        by: u32,
        key: u32,
        have: &mut Log,
    ) -> Result<(), AllocError>
        requires published { HasTranslation self.old.journal key }
        requires begins { IsPrefix have.old (pool_of key self.old.journal) }
        ensures pool { OnOk result (have.new ≡ pool_of key self.old.journal) }
        ensures grows { IsPrefix have.old have.new }
        ensures begins { IsPrefix have.new (pool_of key self.old.journal) }
        ensures entry { OnOk result (self.new ≡ with_entry self.old by (WasImported key (length (pool_of key self.old.journal)))) }
        ensures err { OnErr result (self.new ≡ self.old) }
    {
        a_legal_journal_grows();
        let pool = &self.pools[key as usize];
        let steps = pool.len();
        put_behind(alloc, self.entries.as_slice(), key, steps as usize, have)?;
        self.entries.push(Entry {
            by,
            event: Event::Imported { key, steps },
        })?;
        Ok(())
    }

    /// Adds to the key's pool as many of the steps, the first ones, as fit its limits, and answers how many they are. The
    /// steps go on from the pool's first `at` ones over the clauses of the key's translation alone. Appends an entry with
    /// the steps as they came into the pool. After an error the hub is as before.
    pub fn share(
        &mut self,
        alloc: Global,
        by: u32,
        key: u32,
        at: u32,
        free: &Log,
    ) -> Result<u32, AllocError>
        requires { GoesOn self.old.journal key at free.now }
        ensures entry { (t : Translated) → IsPublished self.old.journal key t → IfOk result (λ n. self.new ≡ with_entry self.old by (WasShared key (take n (moved self.old.journal key t at free.now)))) }
        ensures longest { (t : Translated) → IsPublished self.old.journal key t → IfOk result (λ n. IsLongestFit (pool_of key self.old.journal) (moved self.old.journal key t at free.now) n) }
        ensures err { OnErr result (self.new ≡ self.old) }
    {
        a_legal_journal_grows();
        a_pool_rests_on_the_translation_alone();
        one_length_is_longest();
        let Some(t) = self.cache.find(key)? else {
            unreachable!()
        };
        let steps = self.pools[key as usize].addition(alloc, t.cnf(), at, free)?;
        self.entries.reserve(1)?;
        let count = self.pools[key as usize].share(alloc, t.cnf(), at, free)?;
        self.entries.push_reserved(Entry {
            by,
            event: Event::Shared { key, steps },
        });
        Ok(count)
    }

    /// Appends that a session was opened, or a step of it with its reply, where the journal stays legal with it. After an
    /// error the hub is as before.
    pub fn record(&mut self, by: u32, event: Event) -> Result<(), AllocError>
        requires { IsSomeAnd (note_to_record event) (λ note. MayFollow self.old.problems self.old.journal by note) }
        ensures ok { OnOk result (IfSome (note_to_record event) (λ note. self.new ≡ with_entry self.old by note)) }
        ensures err { OnErr result (self.new ≡ self.old) }
    {
        a_legal_journal_grows();
        self.entries.push(Entry { by, event })?;
        Ok(())
    }

    /// All that was done, in order.
    pub fn journal(&self) -> &[Entry]
        ensures entries { result.now ≡ map entry_of self.now.journal }
        ensures legal { IsLegal self.now.problems self.now.journal }
    {
        self.entries.as_slice()
    }
}

// A pool without steps for each of so many keys.
fn empty_pools(alloc: Global, keys: u32) -> Result<Vec<Pool>, AllocError>
    ensures { IfOk result (λ pools. pools.items ≡ replicate keys []) }
{
    let mut pools = Vec::with_capacity(alloc, keys as usize)?;
    for key in 0..keys {
        let _ = key; // for the proof
        pools.push(Pool::new(alloc))?;
    }
    Ok(pools)
}
