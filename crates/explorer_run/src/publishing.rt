// The translation of each key.
ghost use Rattle.std.specs.Prelude.{◌≡◌, ◌*◌, ◌≤◌, ◌<◌, ◌^◌, ℕ, Some, IfOk, length, map, slice_index_or, All};
ghost use Rattle.std.specs.Fork.{slice_chunk};
ghost use Rattle.hub_turns.specs.Turned.{IsIdle, WentOn};
ghost use Rattle.explorer_run.specs.Served.{IsServable, ArePublished, values_of};
ghost use Rattle.explorer_run.specs.Parts.{AreTranslated, AreJoined};
ghost use Rattle.explorer_run.specs.Seats.{HasPublishedOnly};

use hub_lock::{Pass, Turns};
use hub_state::Hub;
use hub_turns::publish;
use rel_formula::Problem;
use std::alloc::{AllocError, Global};
use std::sync::{Arc, Wait};
use std::thread::{self, Threads};
use translation::Translation;

/// A translation of each problem, made side by side by so many workers at most, in threads of their own: each makes those of some
/// neighbouring problems. The error comes only for want of memory.
pub(crate) fn translate_all<R: Threads + Sync>(
    rt: &R,
    alloc: Global,
    problems: &[Problem],
    workers: u32,
) -> Result<Vec<Arc<Translation>>, AllocError>
    requires workers { 1 ≤ workers }
    requires problems { All IsServable problems.now }
    ensures { IfOk result (λ ts. map (λ t. t.problem) (values_of ts.items) ≡ problems.now) }
{
    let size = problems.len().div_ceil(workers as usize);
    if size >= problems.len() {
        return translate_each(alloc, problems);
    }
    let parts = translate_parts(rt, alloc, problems, size)?;
    put_together(alloc, parts)
}

// The translations of each part of so many problems, made side by side; the last part may have fewer.
fn translate_parts<R: Threads + Sync>(
    rt: &R,
    alloc: Global,
    problems: &[Problem],
    size: usize,
) -> Result<Vec<Result<Vec<Arc<Translation>>, AllocError>>, AllocError>
    requires size { 0 < size }
    requires problems { All IsServable problems.now }
    ensures enough { IfOk result (λ parts. length problems.now ≤ length parts.items * size) }
    ensures each { IfOk result (λ parts. (k : ℕ) (d : _) → k < length parts.items → AreTranslated (slice_chunk problems.now size k) (slice_index_or parts.items k d)) }
{
    thread::map_chunks(
        rt,
        alloc,
        problems,
        size,
        &|_, part: &[Problem]| -> Result<Vec<Arc<Translation>>, AllocError>
            requires { All IsServable part.now }
            ensures { AreTranslated part.now result }
        { translate_each(alloc, part) },
    )
}

// A translation of each problem, made one after the other.
fn translate_each(alloc: Global, problems: &[Problem]) -> Result<Vec<Arc<Translation>>, AllocError>
    requires { All IsServable problems.now }
    ensures { IfOk result (λ ts. map (λ t. t.problem) (values_of ts.items) ≡ problems.now) }
{
    let mut translations = Vec::with_capacity(alloc, problems.len())?;
    for problem in problems {
        let translation = Translation::build(alloc, problem.copy(alloc)?)?;
        translations.push(Arc::new(alloc, translation)?)?;
    }
    Ok(translations)
}

// The translations of all parts, in order. The error is that of a part, or comes for want of memory.
fn put_together(
    alloc: Global,
    parts: Vec<Result<Vec<Arc<Translation>>, AllocError>>,
) -> Result<Vec<Arc<Translation>>, AllocError>
    ensures { IfOk result (λ all. AreJoined parts.items all) }
{
    let mut all = Vec::new(alloc);
    for part in parts {
        let mut made = part?;
        all.append(&mut made)?;
    }
    Ok(all)
}

/// Publishes the translations, each for the key that is its place, and answers those that are kept.
pub(crate) fn publish_all<R: Wait>(
    rt: &R,
    alloc: Global,
    lock: &Turns<Hub>,
    root: &mut Pass<Hub>,
    translations: &[Arc<Translation>],
) -> Result<Vec<Arc<Translation>>, AllocError>
    requires idle { IsIdle lock.now root.old }
    requires keys { root.old.view.base ≡ Some (map (λ t. t.problem) (values_of translations.now)) }
    requires few { length translations.now < 2 ^ 32 }
    requires own { HasPublishedOnly root.old }
    ensures goes { WentOn lock.now root.old root.new }
    ensures own { HasPublishedOnly root.new }
    ensures keys { IfOk result (λ kept. length kept.items ≡ length translations.now) }
    ensures published { IfOk result (λ kept. ArePublished root.new.view.seen (values_of kept.items)) }
{
    let mut kept = Vec::with_capacity(alloc, translations.len())?;
    for translation in translations {
        let key = kept.len() as u32;
        kept.push(publish(rt, lock, root, key, Arc::try_clone(translation)?)?)?;
    }
    Ok(kept)
}
