// `all`: the next scenario, again and again.
ghost use Rattle.std.specs.Prelude.{◌≡◌, ◌≤◌, ◌<◌, ◌+◌, ◌*◌, ◌==◌, ◌⊎◌, ◌++◌, ◌∷◌, [], ℕ, List, length, MatchOption, if◌then◌else◌, vec_len, vec_capacity};
ghost use Rattle.hub_lock.specs.Passes.{PassView};
ghost use Rattle.rel_formula.specs.Bounds.{Bounded};
ghost use Rattle.session_words.specs.declared.commands.Command.TheVariants.{All};
ghost use Rattle.session_rules.specs.States.{top_floor};
ghost use Rattle.session_rules.specs.Transcripts.{ListsShown};
ghost use Rattle.session_rules.specs.declared.answers.Reply.TheVariants.{All as AllShown, Memory};
ghost use Rattle.session_state.specs.Sessions.Fits.{InSession, FitsProblem};
ghost use Rattle.session_turns.specs.Serving.{IsPrintable};
ghost use Rattle.session_turns.specs.Showing.{IsFirst};
ghost use Rattle.hub_state.specs.Journal.Noted.{Noted};
ghost use Rattle.hub_turns.specs.Turned.{WentOn};
ghost use Rattle.session_turns.specs.Added.{HasServed, HasShownAll};
ghost use Rattle.session_turns.specs.Seated.{IsSeated, BeginsPool};

use crate::steps::take_step;
use hub_lock::{Pass, Turns};
use hub_state::Hub;
use refutation_check::Log;
use rel_formula::Scenario;
use session_rules::laws::a_run_is_sound;
use session_rules::{Reply, Scenarios};
use session_state::search_rounds::StepCount;
use session_state::session_search::Session;
use session_words::Step;
use std::alloc::Global;
use std::sync::Wait;
use translation::Translation;

/// The scenarios that a command has shown so far, and the number of the first.
#[derive(Drop)]
pub(crate) struct Showing {
    pub first: u32,
    pub scenarios: Vec<Scenario>,
}

/// Asks for the next scenario up to so many times.
pub(crate) fn show_all<R: Wait>(
    rt: &R,
    alloc: Global,
    lock: &Turns<Hub>,
    pass: &mut Pass<Hub>,
    session: &mut Session,
    pool: &mut Log,
    translation: &Translation,
    wanted: u32,
    count: &mut StepCount,
) -> Reply
    requires seated { (shown : ℕ) × IsSeated lock.now translation.now shown pass.old session.old × (shown + wanted ≤ 20000) }
    requires some { 1 ≤ wanted }
    requires begins { BeginsPool pool.old pass.old session.old }
    ensures goes { WentOn lock.now pass.old pass.new }
    ensures served { HasServed translation.now pass.old pass.new session.old session.new (All wanted) result }
    ensures printable { IsPrintable translation.now (top_floor session.old.kept.state) result }
    ensures seated { (shown : ℕ) → IsSeated lock.now translation.now shown pass.old session.old → IsSeated lock.now translation.now (shown + wanted) pass.new session.new }
    ensures key { session.new.key ≡ session.old.key }
    ensures begins { BeginsPool pool.new pass.new session.new }
    ensures spent { count.new ≤ count.old + wanted * session.old.kept.state.budget }
    ensures budget { session.new.kept.state.budget ≡ session.old.kept.state.budget }
{
    a_run_is_sound();
    let Ok(scenarios) = Vec::with_capacity(alloc, wanted as usize) else {
        return Reply::Memory;
    };
    let mut showing = Showing {
        first: 0,
        scenarios,
    };
    for _time in 0..wanted {
        if let Some(reply) = show_one(
            rt,
            alloc,
            lock,
            pass,
            session,
            pool,
            translation,
            &mut showing,
            count,
        ) {
            return reply;
        }
    }
    Reply::Partly {
        first: showing.first,
        scenarios: Scenarios::of(showing.scenarios),
    }
}

// Shows one scenario more, for which there is room; or gives what a command comes to that asks for more than were shown.
fn show_one<R: Wait>(
    rt: &R,
    alloc: Global,
    lock: &Turns<Hub>,
    pass: &mut Pass<Hub>,
    session: &mut Session,
    pool: &mut Log,
    translation: &Translation,
    showing: &mut Showing,
    count: &mut StepCount,
) -> Option<Reply>
    requires seated { IsSeated lock.now translation.now 19999 pass.old session.old }
    requires room { vec_len showing.old.scenarios < vec_capacity showing.old.scenarios }
    requires begins { BeginsPool pool.old pass.old session.old }
    ensures goes { WentOn lock.now pass.old pass.new }
    ensures shown { (start : PassView Noted (List Bounded)) (old : InSession) → start.view.number ≡ pass.old.view.number → old.key ≡ session.old.key → HasShownAll translation.now start pass.old old session.old showing.old.scenarios.items
        → IsFirst old.kept.state showing.old.scenarios.items showing.old.first
        → MatchOption result (HasShownAll translation.now start pass.new old session.new showing.new.scenarios.items × IsFirst old.kept.state showing.new.scenarios.items showing.new.first)
        (λ reply. (n : ℕ) → length showing.old.scenarios.items < n → HasServed translation.now start pass.new old session.new (All n) reply) }
    ensures room { vec_capacity showing.old.scenarios ≤ vec_capacity showing.new.scenarios }
    ensures count { MatchOption result ((length showing.new.scenarios.items ≡ length showing.old.scenarios.items + 1) × (vec_len showing.new.scenarios ≡ vec_len showing.old.scenarios + 1)) (λ reply. IsPrintable translation.now (top_floor session.old.kept.state) reply) }
    ensures seated { (shown : ℕ) → IsSeated lock.now translation.now shown pass.old session.old → IsSeated lock.now translation.now (shown + 1) pass.new session.new }
    ensures key { session.new.key ≡ session.old.key }
    ensures begins { BeginsPool pool.new pass.new session.new }
    ensures spent { count.new ≤ count.old + session.old.kept.state.budget }
    ensures budget { session.new.kept.state.budget ≡ session.old.kept.state.budget }
{
    a_run_is_sound();
    match take_step(
        rt,
        alloc,
        lock,
        pass,
        session,
        pool,
        translation,
        &Step::Next,
        count,
    ) {
        Reply::Shown { number, scenario } => {
            showing.add(number, scenario);
            None
        }
        Reply::End { .. } => Some(all_shown(alloc, session)),
        reply => Some(reply),
    }
}

impl Showing {
    // Adds a scenario with its number, for which there is room.
    fn add(&mut self, number: u32, scenario: Scenario)
        requires { vec_len self.old.scenarios < vec_capacity self.old.scenarios }
        ensures scenarios { self.new.scenarios.items ≡ self.old.scenarios.items ++ scenario ∷ [] }
        ensures first { self.new.first ≡ (if length self.old.scenarios.items == 0 then number else self.old.first) }
        ensures length { vec_len self.new.scenarios ≡ vec_len self.old.scenarios + 1 }
        ensures capacity { vec_capacity self.old.scenarios ≤ vec_capacity self.new.scenarios }
    {
        if self.scenarios.as_slice().is_empty() {
            self.first = number;
        }
        let _ = self.scenarios.push(scenario);
    }
}

// All that was shown at the top floor, in order; or want of memory.
fn all_shown(alloc: Global, session: &Session) -> Reply
    requires { (p : Bounded) × FitsProblem p session.now.kept }
    ensures { (result ≡ Memory) ⊎ ((scenarios : List (List ℕ)) × (result ≡ AllShown scenarios) × ListsShown session.now.kept.state scenarios) }
{
    match session.listed(alloc) {
        Ok(scenarios) => Reply::All {
            scenarios: Scenarios::of(scenarios),
        },
        Err(_) => Reply::Memory,
    }
}
