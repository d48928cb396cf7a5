// Which translation stays, and where it is found.
ghost use Rattle.std.specs.Prelude.{◌≡◌, ◌⊎◌, ◌<◌, length};
ghost use Rattle.rel_formula.specs.Kernel.{conjunction, disjunction, no_formulas};
ghost use Rattle.rel_formula.specs.View.{formula_tree};

use rel_formula::{Connective, Formula, Problem};
use std::alloc::Global;
use std::sync::Arc;
use std::test::Fail;
use translation::Translation;
use translation_cache::Cache;

// A formula that is always true, or one that never is.
fn constant(alloc: Global, holds: bool) -> Formula
    ensures { (formula_tree result ≡ conjunction no_formulas) ⊎ (formula_tree result ≡ disjunction no_formulas) }
{
    if holds {
        Formula::all_of(Vec::new(alloc))
    } else {
        Formula::any_of(Vec::new(alloc))
    }
}

// The translation of this formula, in a problem without relations.
fn translated(alloc: Global, holds: bool) -> Result<Arc<Translation>, Fail> {
    let formula = constant(alloc, holds);
    let problem = Problem::of(alloc, Vec::new(alloc), Vec::new(alloc), formula)?;
    let made = Translation::build(alloc, problem)?;
    Ok(Arc::new(alloc, made)?)
}

// A value that threads may share.
fn shared<T: Send + Sync>(value: T) -> T {
    value
}

// Whether the translation is that of the formula that is always true.
fn is_of_true(t: &Translation) -> bool {
    matches!(t.problem().formula(), Formula::Junction(Connective::And, _))
}

// Publishes the translation of this formula for the key: whether the one that is kept is of the formula that is always true.
fn publish(alloc: Global, cache: &mut Cache, key: u32, holds: bool) -> Result<bool, Fail>
    requires { key < length cache.old }
    ensures { length cache.new ≡ length cache.old }
{
    let made = shared(translated(alloc, holds)?);
    let kept = cache.publish(key, made)?;
    Ok(is_of_true(&kept))
}

// What is found for the key: none, or whether it is of the formula that is always true.
fn found(cache: &Cache, key: u32) -> Result<Option<bool>, Fail>
    requires { key < length cache.now }
{
    match cache.find(key)? {
        None => Ok(None),
        Some(t) => Ok(Some(is_of_true(&t))),
    }
}

#[test]
fn nothing_is_found_before_it_is_published(rt: HostRuntime) -> Result<(), Fail> {
    let cache = Cache::new(rt.alloc(), 2)?;
    assert_eq!(rt; found(&cache, 0)?, None);
    assert_eq!(rt; found(&cache, 1)?, None);
    Ok(())
}

#[test]
fn the_first_translation_of_a_key_stays(rt: HostRuntime) -> Result<(), Fail> {
    let alloc = rt.alloc();
    let mut cache = Cache::new(alloc, 3)?;
    assert!(rt; publish(alloc, &mut cache, 1, true)?);
    assert!(rt; publish(alloc, &mut cache, 1, false)?);
    assert!(rt; !publish(alloc, &mut cache, 2, false)?);
    assert_eq!(rt; found(&cache, 0)?, None);
    assert_eq!(rt; found(&cache, 1)?, Some(true));
    assert_eq!(rt; found(&cache, 2)?, Some(false));
    Ok(())
}
