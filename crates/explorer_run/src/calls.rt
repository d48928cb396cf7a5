// The explorer's calls.
ghost use Rattle.std.specs.Prelude.{◌≡◌, ◌≢◌, ◌+◌, ◌≤◌, ◌<◌, ◌^◌, ℕ, List, Some, IfOk, OnOk, OnErr, length, slice_get, All};
ghost use Rattle.hub_lock.specs.Passes.{of_pass, joining, last_of, IsJoined};
ghost use Rattle.rel_formula.specs.Bounds.{Bounded};
ghost use Rattle.translation_rules.specs.Translation.{Translated};
ghost use Rattle.script_format.specs.Limits.{IsAllowed};
ghost use Rattle.script_format.specs.Reading.{asks};
ghost use Rattle.session_rules.specs.States.{top_floor};
ghost use Rattle.hub_state.specs.Journal.Journal.{IsLegal};
ghost use Rattle.hub_turns.specs.Turned.{IsIdle, WentOn};
ghost use Rattle.session_turns.specs.Serving.{IsPrintable};
ghost use Rattle.session_turns.specs.Seated.{IsSeated};
ghost use Rattle.session_turns.specs.Allowed.{cost_of};
ghost use Rattle.session_turns.specs.Added.{HasServed};
ghost use Rattle.explorer_run.specs.Served.{IsServable, IsServableScript, AreServedFrom, allowed_in, values_of};
ghost use Rattle.explorer_run.specs.Seats.{IsRoot, StaysRoot, IsNewRoot, HasOpened};

use crate::publishing::{publish_all, translate_all};
use crate::seats::open_pass;
use crate::workers::serve_all;
use hub_lock::{Gate, Pass, Turns, turns};
use hub_state::Hub;
use hub_turns::passes_stay_idle;
use rel_formula::Problem;
use session_rules::{Reply, SessionScript, Transcript};
use session_state::session_search::Session;
use session_turns::StepCount;
use session_words::Command;
use std::alloc::{AllocError, Global};
use std::sync::{Arc, Wait};
use std::thread::Threads;
use translation::Translation;

/// A hub that sessions share, the translation of each key's problem, and the gate that is passed before each command.
#[derive(Drop)]
pub struct Explorer<'g, G> {
    pub lock: Turns<Hub>,
    pub gate: &'g G,
    pub translations: Vec<Arc<Translation>>,
}

impl<'g, G> Explorer<'g, G> {
    /// An explorer of these problems, whose keys are their places, and the first pass, which has published the translation of
    /// each. So many workers at most, in threads of their own, make the translations side by side. The error comes only for want
    /// of memory.
    pub fn new<R: Threads + Wait + Sync>(
        rt: &R,
        alloc: Global,
        problems: Vec<Problem>,
        gate: &'g G,
        workers: u32,
    ) -> Result<(Explorer<'g, G>, Pass<Hub>), AllocError>
        requires few { length problems.items < 2 ^ 32 }
        requires problems { All IsServable problems.items }
        requires workers { (1 ≤ workers) × (workers ≤ 16) }
        ensures { IfOk result (λ r. IsNewRoot r.0.lock problems.items (values_of r.0.translations.items) r.1) }
    {
        passes_stay_idle();
        let translations = translate_all(rt, alloc, problems.as_slice(), workers)?;
        let (lock, mut root) = turns(alloc, Hub::new(alloc, problems)?)?;
        match publish_all(rt, alloc, &lock, &mut root, translations.as_slice()) {
            Ok(translations) => Ok((
                Explorer {
                    lock,
                    gate,
                    translations,
                },
                root,
            )),
            Err(error) => {
                let _hub = lock.close(root);
                Err(error)
            }
        }
    }

    /// Splits a pass off from the first one, and opens a session in it, on the problem of this key, with this budget, which is at
    /// most 100,000. After an error the pass was taken back.
    pub fn open<R: Wait>(
        &self,
        rt: &R,
        alloc: Global,
        root: &mut Pass<Hub>,
        key: u32,
        budget: u32,
    ) -> Result<(Pass<Hub>, Session), AllocError>
        requires root { IsRoot self.now.lock (values_of self.now.translations.items) root.old }
        requires key { key < length self.now.translations.items }
        requires budget { budget ≤ 100000 }
        requires room { root.old.view.made < 4294967295 }
        ensures root { StaysRoot self.now.lock (values_of self.now.translations.items) root.old root.new }
        ensures made { OnOk result (root.new.view.made ≡ root.old.view.made + 1) }
        ensures live { OnOk result (root.new.view.live ≡ root.old.view.live + 1) }
        ensures opened { IfOk result (λ r. HasOpened self.now.lock (values_of self.now.translations.items) key budget root.old r.0 r.1) }
        ensures err { OnErr result (root.new.view.live ≡ root.old.view.live) }
    {
        open_pass(
            rt,
            alloc,
            &self.lock,
            root,
            self.translations.as_slice(),
            key,
            budget,
        )
    }

    /// Takes a session's pass back. The first pass has then seen the longer of both lists, which begins with both; in it the
    /// entries under the other's number are its own, and those of passes that were taken back earlier are as they were.
    pub fn retire(&self, root: &mut Pass<Hub>, pass: Pass<Hub>)
        requires root { IsRoot self.now.lock (values_of self.now.translations.items) root.old }
        requires idle { IsIdle self.now.lock pass }
        requires number { pass.view.number ≢ 0 }
        requires base { root.old.view.base ≡ pass.view.base }
        ensures root { StaysRoot self.now.lock (values_of self.now.translations.items) root.old root.new }
        ensures view { root.new.view ≡ joining root.old.view pass.view }
        ensures joined { IsJoined (λ x. x.by) root.new.view (last_of root.old.view pass.view) }
    {
        passes_stay_idle();
        self.lock.join(root, pass);
    }

    /// Ends the explorer, once every other pass was taken back. The hub's journal is exactly what the first pass has seen.
    pub fn finish(self, root: Pass<Hub>) -> (Hub, Vec<Arc<Translation>>)
        requires root { IsRoot self.lock (values_of self.translations.items) root }
        requires alone { root.view.live ≡ 0 }
        ensures problems { root.view.base ≡ Some result.0.problems }
        ensures journal { result.0.journal ≡ root.view.seen }
        ensures legal { IsLegal result.0.problems result.0.journal }
        ensures numbers { All (λ x. x.by ≤ root.view.made) result.0.journal }
        ensures publications { of_pass (λ x. x.by) 0 result.0.journal ≡ root.view.own }
        ensures translations { values_of result.1.items ≡ values_of self.entry.translations.items }
    {
        let Explorer {
            lock,
            gate: _,
            translations,
        } = self;
        (lock.close(root), translations)
    }
}

impl<'g, G: Gate> Explorer<'g, G> {
    /// Passes the gate, with the session's place and the command's, and answers the command, in turns of the session's pass. The
    /// session is one over the translation of its key, and has shown at most 20,000 scenarios with those that the command asks
    /// for. A budget is at most 100,000, and `all` asks for some scenario. The count is raised by the steps that searches learn, which
    /// are no more than the command may take.
    pub fn command<R: Wait>(
        &self,
        rt: &R,
        alloc: Global,
        pass: &mut Pass<Hub>,
        session: &mut Session,
        place: u32,
        number: u32,
        command: &Command,
        count: &mut StepCount,
    ) -> Reply
        requires seated { (t : Translated) × (shown : ℕ) × (slice_get (values_of self.now.translations.items) session.old.key ≡ Some t) × IsSeated self.now.lock t shown pass.old session.old × (shown + asks command.now ≤ 20000) }
        requires allowed { IsAllowed command.now }
        ensures goes { WentOn self.now.lock pass.old pass.new }
        ensures spent { count.new ≤ count.old + cost_of session.old.kept.state.budget command.now }
        ensures key { session.new.key ≡ session.old.key }
        ensures served { (t : Translated) → slice_get (values_of self.now.translations.items) session.old.key ≡ Some t → HasServed t pass.old pass.new session.old session.new command.now result × IsPrintable t (top_floor session.old.kept.state) result }
        ensures seated { (t : Translated) (shown : ℕ) → slice_get (values_of self.now.translations.items) session.old.key ≡ Some t → IsSeated self.now.lock t shown pass.old session.old
            → IsSeated self.now.lock t (shown + asks command.now) pass.new session.new }
    {
        self.gate.pass(place, number);
        let translation = &self.translations[session.key() as usize];
        session_turns::command(
            rt,
            alloc,
            &self.lock,
            pass,
            session,
            translation,
            command,
            count,
        )
    }
}

impl<'g, G: Gate + Sync> Explorer<'g, G> {
    /// Serves the sessions of scripts, each by one of so many workers in threads of their own: they are opened in order, under the
    /// numbers that come next, and served side by side, and then their passes are taken back, also after an error. The gate is
    /// passed before each command, with the session's place and the command's. The count is raised by the steps that the sessions'
    /// searches learn, which are no more than their commands may take. The error comes only for want of memory.
    pub fn serve_all<R: Threads + Wait + Sync>(
        &self,
        rt: &R,
        alloc: Global,
        root: &mut Pass<Hub>,
        scripts: &[SessionScript],
        workers: u32,
        count: &mut StepCount,
    ) -> Result<Vec<Transcript>, AllocError>
        requires workers { (1 ≤ workers) × (workers ≤ 16) }
        requires root { IsRoot self.now.lock (values_of self.now.translations.items) root.old }
        requires few { root.old.view.made + length scripts.now < 2 ^ 32 }
        requires scripts { All (IsServableScript (length self.now.translations.items)) scripts.now }
        ensures root { StaysRoot self.now.lock (values_of self.now.translations.items) root.old root.new }
        ensures live { root.new.view.live ≡ root.old.view.live }
        ensures made { OnOk result (root.new.view.made ≡ root.old.view.made + length scripts.now) }
        ensures spent { count.new ≤ count.old + allowed_in scripts.now }
        ensures told { (problems : List Bounded) → root.old.view.base ≡ Some problems
            → IfOk result (λ ts. AreServedFrom problems root.new.view.seen (values_of self.now.translations.items) (root.old.view.made + 1) scripts.now ts.items) }
    {
        serve_all(
            rt,
            alloc,
            &self.lock,
            self.gate,
            root,
            self.translations.as_slice(),
            scripts,
            workers,
            count,
        )
    }
}
