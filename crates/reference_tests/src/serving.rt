// Sessions that are served step by step.
ghost use Rattle.std.specs.Prelude.{◌≤◌, ◌+◌, IfOk, OnOk, length};
ghost use Rattle.session_state.specs.Sessions.Fits.{FitsProblem};
ghost use Rattle.session_state.specs.Sessions.Proposed.{IsPlain, NeedsTranslation};

use crate::asks::{Ask, Asked};
use refutation_check::Log;
use rel_formula::Problem;
use session_rules::Reply;
use session_state::search_rounds::StepCount;
use session_state::session_search::Session;
use session_words::{AtomName, AtomNames, Step};
use std::alloc::{AllocError, Global};
use translation::Translation;
use tuple_core::Name;

// What the session answers, and takes in.
pub fn answer(
    alloc: Global,
    session: &mut Session,
    made: &Translation,
    ask: Ask,
) -> Result<Reply, AllocError>
    requires fits { FitsProblem made.now.problem session.old.kept }
    requires few { length session.old.kept.state.shown ≤ 1000 }
    ensures fits { OnOk result (FitsProblem made.now.problem session.new.kept) }
    ensures few { OnOk result (length session.new.kept.state.shown ≤ length session.old.kept.state.shown + 1) }
{
    match ask {
        Ask::Next => searched(alloc, session, made, Step::Next),
        Ask::Offers => searched(alloc, session, made, Step::Offers),
        Ask::Augment(asked) => {
            let step = augmentation(alloc, made.problem(), asked)?;
            searched(alloc, session, made, step)
        }
        Ask::Back => plain(alloc, session, made, Step::Back),
        Ask::Budget(budget) => plain(alloc, session, made, Step::Budget(budget.min(100_000))),
        Ask::Proof => plain(alloc, session, made, Step::Proof),
    }
}

// What a step comes to that is answered by a search.
fn searched(
    alloc: Global,
    session: &mut Session,
    made: &Translation,
    step: Step,
) -> Result<Reply, AllocError>
    requires step { NeedsTranslation step }
    requires fits { FitsProblem made.now.problem session.old.kept }
    requires few { length session.old.kept.state.shown ≤ 1000 }
    ensures fits { OnOk result (FitsProblem made.now.problem session.new.kept) }
    ensures few { OnOk result (length session.new.kept.state.shown ≤ length session.old.kept.state.shown + 1) }
{
    let pool = Log::new(alloc);
    let mut count = StepCount::new();
    let proposal = session.propose(alloc, made, &pool, &step, &mut count)?;
    let reply = proposal.reply().copy(alloc)?;
    session.reserve(&proposal)?;
    session.apply(proposal);
    Ok(reply)
}

// What a step comes to that is answered without one.
fn plain(
    alloc: Global,
    session: &mut Session,
    made: &Translation,
    step: Step,
) -> Result<Reply, AllocError>
    requires step { IsPlain step }
    requires fits { FitsProblem made.now.problem session.old.kept }
    requires few { length session.old.kept.state.shown ≤ 1000 }
    ensures fits { OnOk result (FitsProblem made.now.problem session.new.kept) }
    ensures few { OnOk result (length session.new.kept.state.shown ≤ length session.old.kept.state.shown + 1) }
{
    let _problem = made.problem(); // for the proof
    let pool = Log::new(alloc);
    let mut count = StepCount::new();
    let proposal = session.propose(alloc, made, &pool, &step, &mut count)?;
    let reply = proposal.reply().copy(alloc)?;
    session.reserve(&proposal)?;
    session.apply(proposal);
    Ok(reply)
}

// The step that asks for the tuple by its names.
fn augmentation(alloc: Global, problem: &Problem, asked: Asked) -> Result<Step, AllocError>
    ensures { IfOk result (λ step. NeedsTranslation step) }
{
    let relation = relation_name(alloc, problem, asked.relation)?;
    let tuple = AtomNames::of(atom_names(alloc, asked)?);
    Ok(Step::Augment { relation, tuple })
}

// The name of the relation of this number, or a name that no relation has.
fn relation_name(alloc: Global, problem: &Problem, number: u8) -> Result<Name, AllocError> {
    match problem.relations().get(number as usize) {
        Some(relation) => Ok(relation.name.copy(alloc)?),
        None => Ok(Name::of(alloc, "none")?),
    }
}

// The names of the atoms.
fn atom_names(alloc: Global, asked: Asked) -> Result<Vec<AtomName>, AllocError> {
    let mut names = Vec::new(alloc);
    names.push(atom_name(alloc, asked.first)?)?;
    if let Some(second) = asked.second {
        names.push(atom_name(alloc, second)?)?;
    }
    Ok(names)
}

// The name of the atom at this place.
fn atom_name(alloc: Global, place: u16) -> Result<AtomName, AllocError> {
    let top = Name::of(alloc, "A")?;
    let place = place as u32;
    Ok(AtomName { top, place })
}
