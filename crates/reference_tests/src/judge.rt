// What a session may answer by the definition of the session machine, where all sets of cells of its problem are tried.
ghost use Rattle.std.specs.Prelude.{◌≤◌, length};
ghost use Rattle.rel_formula.specs.Bounds.{cells_of};

use crate::asks::{Ask, Asked, ENOUGH};
use crate::kinds::kind_of;
use crate::proofs_of_ends::is_same_proof;
use rel_formula::{Problem, Scenario};
use samples::exhaustive_search::{all_due_at, all_offers, has_instance_above};
use session_rules::{EndProof, Refusal, Reply, WorkDone};
use std::alloc::{AllocError, Global};

// A scenario, and the floor at which it was shown.
#[derive(Drop)]
struct ShownAt {
    floor: Scenario,
    scenario: Scenario,
}

// A floor that has ended, and the proof of that.
#[derive(Drop)]
struct EndedAt {
    floor: Scenario,
    proof: EndProof,
}

// The state of the session machine: the floors; what was shown, in order; the floors that have ended; and the budget. And the
// kinds of answers that came.
#[derive(Drop)]
pub struct Judge {
    bottom: Scenario,
    above: Vec<Scenario>,
    shown: Vec<ShownAt>,
    ended: Vec<EndedAt>,
    budget: u32,
    kinds: u32,
}

// What a relation and atoms stand for: no tuple that the relation may have, one that it always has, or a cell.
#[derive(Clone, Copy)]
enum Meant {
    Nothing,
    Always,
    Cell(u32),
}

impl Judge {
    // At the start, with this budget.
    pub fn new(alloc: Global, budget: u32) -> Judge {
        Judge {
            bottom: Scenario::new(alloc),
            above: Vec::new(alloc),
            shown: Vec::new(alloc),
            ended: Vec::new(alloc),
            budget,
            kinds: 0,
        }
    }

    // The kinds of the answers that were taken in.
    pub fn kinds(&self) -> u32 {
        self.kinds
    }

    // The top floor.
    pub fn floor(&self) -> &Scenario {
        match self.above.last() {
            Some(floor) => floor,
            None => &self.bottom,
        }
    }

    // How many scenarios were shown at the top floor.
    pub fn count_here(&self) -> usize {
        let floor = self.floor();
        self.shown
            .iter()
            .filter(|one| is_same(&one.floor, floor))
            .count()
    }

    // Whether the scenario was shown at the top floor.
    pub fn was_shown(&self, scenario: &Scenario) -> bool {
        let floor = self.floor();
        self.shown.iter().any(|one| is_same(&one.floor, floor) && is_same(&one.scenario, scenario))
    }

    // The last scenario that was shown at the top floor.
    fn current(&self) -> Option<&Scenario> {
        let mut last = None;
        for one in &self.shown {
            if is_same(&one.floor, self.floor()) {
                last = Some(&one.scenario);
            }
        }
        last
    }

    // The proof with which the top floor has ended.
    fn proof(&self) -> Option<&EndProof> {
        for one in &self.ended {
            if is_same(&one.floor, self.floor()) {
                return Some(&one.proof);
            }
        }
        None
    }

    // Whether the session may answer this. A budget of `ENOUGH` is never spent.
    pub fn may_answer(
        &self,
        alloc: Global,
        problem: &Problem,
        ask: Ask,
        reply: &Reply,
    ) -> Result<bool, AllocError>
        requires { length (cells_of problem.now) ≤ 12 }
    {
        match ask {
            Ask::Next => self.may_go_on(alloc, problem, reply),
            Ask::Offers => self.may_offer(alloc, problem, reply),
            Ask::Augment(asked) => self.may_augment(alloc, problem, asked, reply),
            Ask::Back => Ok(self.may_go_back(reply)),
            Ask::Budget(budget) => Ok(may_set(budget, reply)),
            Ask::Proof => Ok(self.may_prove(reply)),
        }
    }

    fn may_go_on(&self, alloc: Global, problem: &Problem, reply: &Reply) -> Result<bool, AllocError>
        requires { length (cells_of problem.now) ≤ 12 }
    {
        match reply {
            Reply::Shown { number, scenario } => {
                let due = all_due_at(alloc, problem, self.floor())?;
                Ok(
                    self.proof().is_none()
                        && due.iter().any(|one| is_same(one, scenario))
                        && !self.was_shown(scenario)
                        && *number as usize == self.count_here().saturating_add(1),
                )
            }
            Reply::End { number, proof } => {
                let ends = self.may_end(alloc, problem, proof)?;
                Ok(ends && *number as usize == self.count_here())
            }
            Reply::Refused(Refusal::Spent(work)) => {
                Ok(self.proof().is_none() && self.may_have_spent(work))
            }
            _ => Ok(false),
        }
    }

    // Whether the top floor has ended with this proof, or all that is due there was shown.
    fn may_end(
        &self,
        alloc: Global,
        problem: &Problem,
        proof: &EndProof,
    ) -> Result<bool, AllocError>
        requires { length (cells_of problem.now) ≤ 12 }
    {
        match self.proof() {
            Some(first) => Ok(is_same_proof(proof, first)),
            None => {
                let due = all_due_at(alloc, problem, self.floor())?;
                Ok(due.iter().all(|one| self.was_shown(one)))
            }
        }
    }

    fn may_offer(&self, alloc: Global, problem: &Problem, reply: &Reply) -> Result<bool, AllocError>
        requires { length (cells_of problem.now) ≤ 12 }
    {
        let Some(current) = self.current() else {
            return Ok(is_no_scenario(reply));
        };
        match reply {
            Reply::Offers { cells } => {
                let offers = all_offers(alloc, problem, current)?;
                Ok(cells.numbers() == offers.as_slice())
            }
            Reply::Refused(Refusal::Spent(work)) => Ok(self.may_have_spent(work)),
            _ => Ok(false),
        }
    }

    fn may_augment(
        &self,
        alloc: Global,
        problem: &Problem,
        asked: Asked,
        reply: &Reply,
    ) -> Result<bool, AllocError>
        requires { length (cells_of problem.now) ≤ 12 }
    {
        let Some(current) = self.current() else {
            return Ok(is_no_scenario(reply));
        };
        match meaning_of(problem, asked) {
            Meant::Nothing => Ok(is_unknown(reply)),
            Meant::Always => Ok(is_present(reply)),
            Meant::Cell(cell) => self.may_add(alloc, problem, current, cell, reply),
        }
    }

    fn may_add(
        &self,
        alloc: Global,
        problem: &Problem,
        current: &Scenario,
        cell: u32,
        reply: &Reply,
    ) -> Result<bool, AllocError>
        requires { length (cells_of problem.now) ≤ 12 }
    {
        if current.has(cell) {
            return Ok(is_present(reply));
        }
        let mut floor = current.copy(alloc)?;
        floor.insert(cell)?;
        let possible = has_instance_above(alloc, problem, &floor)?;
        let room = self.above.len() < 64;
        match reply {
            Reply::Augmented { floor: told } => Ok(room && possible && is_same(told, &floor)),
            Reply::Refused(Refusal::NoInstance(_)) => Ok(room && !possible),
            Reply::Refused(Refusal::Deep) => Ok(!room),
            Reply::Refused(Refusal::Spent(work)) => Ok(room && self.may_have_spent(work)),
            _ => Ok(false),
        }
    }

    fn may_go_back(&self, reply: &Reply) -> bool {
        match reply {
            Reply::Back => !self.above.is_empty(),
            Reply::Refused(Refusal::Bottom) => self.above.is_empty(),
            _ => false,
        }
    }

    fn may_prove(&self, reply: &Reply) -> bool {
        match self.proof() {
            Some(first) => is_proof(first, reply),
            None => is_no_end(reply),
        }
    }

    fn may_have_spent(&self, work: &WorkDone) -> bool {
        work.budget == self.budget && self.budget < ENOUGH
    }

    // Whether these are the scenarios that were shown at the top floor, the earlier ones first.
    pub fn lists(&self, listed: &[Scenario]) -> bool {
        listed.len() == self.count_here()
            && listed.iter().all(|one| self.was_shown(one))
            && are_in_order(listed)
    }

    // Takes in an answer.
    pub fn take(&mut self, alloc: Global, reply: &Reply) -> Result<(), AllocError> {
        self.kinds |= kind_of(reply);
        match reply {
            Reply::Shown { scenario, .. } => self.take_shown(alloc, scenario),
            Reply::End { proof, .. } => self.take_end(alloc, proof),
            Reply::Augmented { floor } => {
                self.above.push(floor.copy(alloc)?)?;
                Ok(())
            }
            Reply::Back => {
                let _ = self.above.pop();
                Ok(())
            }
            Reply::BudgetSet(budget) => {
                self.budget = *budget;
                Ok(())
            }
            _ => Ok(()),
        }
    }

    fn take_shown(&mut self, alloc: Global, scenario: &Scenario) -> Result<(), AllocError> {
        let floor = self.floor().copy(alloc)?;
        let scenario = scenario.copy(alloc)?;
        self.shown.push(ShownAt { floor, scenario })?;
        Ok(())
    }

    fn take_end(&mut self, alloc: Global, proof: &EndProof) -> Result<(), AllocError> {
        if self.proof().is_none() {
            let floor = self.floor().copy(alloc)?;
            let proof = proof.copy()?;
            self.ended.push(EndedAt { floor, proof })?;
        }
        Ok(())
    }
}

fn is_same(scenario: &Scenario, other: &Scenario) -> bool {
    scenario.numbers() == other.numbers()
}

// Whether each comes earlier than the one behind it.
fn are_in_order(scenarios: &[Scenario]) -> bool {
    for place in 1..scenarios.len() {
        if !is_earlier(&scenarios[place - 1], &scenarios[place]) {
            return false;
        }
    }
    true
}

// Whether the scenario has the first cell, of 12, in which the two differ.
fn is_earlier(scenario: &Scenario, other: &Scenario) -> bool {
    for cell in 0..12 {
        if scenario.has(cell) != other.has(cell) {
            return scenario.has(cell);
        }
    }
    false
}

fn meaning_of(problem: &Problem, asked: Asked) -> Meant {
    let tuple = asked.tuple();
    let Some(relation) = problem.relations().get(asked.relation as usize) else {
        return Meant::Nothing;
    };
    if relation.lower.contains(&tuple) {
        return Meant::Always;
    }
    for (number, cell) in problem.all_cells().iter().enumerate() {
        if cell.relation == asked.relation && cell.tuple == tuple {
            return Meant::Cell(number as u32);
        }
    }
    Meant::Nothing
}

fn may_set(budget: u32, reply: &Reply) -> bool {
    match reply {
        Reply::BudgetSet(told) => *told == budget,
        _ => false,
    }
}

fn is_proof(first: &EndProof, reply: &Reply) -> bool {
    match reply {
        Reply::Proof { proof } => is_same_proof(proof, first),
        _ => false,
    }
}

fn is_no_end(reply: &Reply) -> bool {
    match reply {
        Reply::Refused(Refusal::NoEnd) => true,
        _ => false,
    }
}

fn is_no_scenario(reply: &Reply) -> bool {
    match reply {
        Reply::Refused(Refusal::NoScenario) => true,
        _ => false,
    }
}

fn is_unknown(reply: &Reply) -> bool {
    match reply {
        Reply::Refused(Refusal::UnknownTuple) => true,
        _ => false,
    }
}

fn is_present(reply: &Reply) -> bool {
    match reply {
        Reply::Refused(Refusal::Present) => true,
        _ => false,
    }
}
