// Copies of what sessions answer, read back as numbers.
ghost use Rattle.std.specs.Prelude.{◌≡◌, ◌<◌, IfOk, length};

use crate::numbers_of_replies::{numbers_of, push_reply, push_scenarios};
use crate::told_commands::told_commands;
use cnf_core::{Clause, Lit};
use refutation_check::{Hints, Log, Part};
use rel_formula::Scenario;
use session_rules::{
    CellNumbers, Command, Commands, EndProof, Parts, Refusal, Replies, Reply, Scenarios,
    SessionScript, Step, Transcript, WorkDone,
};
use std::alloc::{AllocError, Global};
use std::process::Abort;
use std::test::Fail;
use tuple_core::Name;

fn insert(scenario: &mut Scenario, number: u32) -> Result<(), AllocError> {
    scenario.insert(number)?;
    Ok(())
}

// The scenario of two cells.
fn scenario(alloc: Global, first: u32, second: u32) -> Result<Scenario, AllocError> {
    let mut scenario = Scenario::new(alloc);
    insert(&mut scenario, first)?;
    insert(&mut scenario, second)?;
    Ok(scenario)
}

// The scenarios of the cells 0 and 2, and of 1 and 3.
fn scenarios(alloc: Global) -> Result<Scenarios, AllocError>
    ensures { IfOk result (λ s. length s ≡ 2) }
{
    let first = scenario(alloc, 2, 0)?;
    let second = scenario(alloc, 1, 3)?;
    Ok(Scenarios::of(vec![in alloc; first, second]?))
}

// The clause of one variable.
fn unit(alloc: Global, var: u32) -> Result<Clause, Fail>
    requires positive { 0 < var }
    requires small { var < 100 }
{
    let lit = Lit {
        var,
        positive: true,
    };
    match Clause::of(alloc, &[lit])? {
        Some(clause) => Ok(clause),
        None => Err("a tautology")?,
    }
}

fn step(
    alloc: Global,
    clause: Clause,
    hints: &[u32],
) -> Result<refutation_check::Step, AllocError> {
    let hints = Hints::of(Vec::from_slice(alloc, hints)?);
    Ok(refutation_check::Step { clause, hints })
}

// A log of one step, of a variable and with these members.
fn log(alloc: Global, var: u32, first: u32, second: u32) -> Result<Log, Fail>
    requires positive { 0 < var }
    requires small { var < 100 }
    ensures { IfOk result (λ log. length log ≡ 1) }
{
    let clause = unit(alloc, var)?;
    let step = step(alloc, clause, &[first, second])?;
    let mut log = Log::new(alloc);
    log.push(step)?;
    Ok(log)
}

// A proof that imported one step and blocked two scenarios.
fn proof(alloc: Global) -> Result<EndProof, Fail> {
    let blocked = scenarios(alloc)?;
    let pool = log(alloc, 5, 7, 8)?;
    let own = log(alloc, 6, 9, 1)?;
    Ok(EndProof::of(alloc, 1, blocked, pool, own)?)
}

// A part with one local clause.
fn part(alloc: Global) -> Result<Part, Fail> {
    let log = log(alloc, 3, 2, 1)?;
    Ok(Part::of(vec![in alloc; unit(alloc, 4)?]?, log))
}

fn parts(alloc: Global) -> Result<Parts, Fail> {
    Ok(Parts::of(vec![in alloc; part(alloc)?]?))
}

fn work(alloc: Global) -> Result<WorkDone, Fail> {
    let parts = parts(alloc)?;
    let copies = scenarios(alloc)?;
    Ok(WorkDone {
        budget: 40,
        parts,
        copies,
    })
}

// A copy of the reply as numbers.
fn numbers_of_copy(alloc: Global, reply: &Reply) -> Result<Vec<u32>, AllocError> {
    numbers_of(alloc, &reply.copy(alloc)?)
}

// Whether a copy of the reply reads as these numbers.
fn copies(
    rt: &impl Abort,
    alloc: Global,
    reply: Result<Reply, Fail>,
    want: &[u32],
) -> Result<(), Fail> {
    let found = numbers_of_copy(alloc, &reply?)?;
    assert!(rt; found.as_slice() == want);
    Ok(())
}

fn shown(alloc: Global) -> Result<Reply, Fail> {
    let scenario = scenario(alloc, 4, 1)?;
    Ok(Reply::Shown {
        number: 3,
        scenario,
    })
}

fn end(alloc: Global) -> Result<Reply, Fail> {
    let proof = proof(alloc)?;
    Ok(Reply::End { number: 2, proof })
}

fn offers(alloc: Global) -> Result<Reply, Fail> {
    let cells = CellNumbers::of(vec![in alloc; 6, 2]?);
    Ok(Reply::Offers { cells })
}

fn augmented(alloc: Global) -> Result<Reply, Fail> {
    let floor = scenario(alloc, 5, 0)?;
    Ok(Reply::Augmented { floor })
}

#[test]
fn copies_of_replies_are_equal(rt: HostRuntime) -> Result<(), Fail> {
    let alloc = rt.alloc();
    let read = [2, 2, 1, 0, 2, 90, 1, 3, 90, 5, 7, 8, 91, 6, 9, 1, 91];
    copies(&rt, alloc, shown(alloc), &[1, 3, 1, 4])?;
    copies(&rt, alloc, end(alloc), &read)?;
    copies(&rt, alloc, offers(alloc), &[3, 6, 2])?;
    copies(&rt, alloc, augmented(alloc), &[4, 0, 5])
}

#[test]
fn copies_of_plain_replies_are_equal(rt: HostRuntime) -> Result<(), Fail> {
    copies(&rt, rt.alloc(), Ok(Reply::Back), &[5])?;
    copies(&rt, rt.alloc(), Ok(Reply::BudgetSet(77)), &[6, 77])?;
    copies(&rt, rt.alloc(), Ok(Reply::Memory), &[11])
}

fn all(alloc: Global) -> Result<Reply, Fail> {
    let scenarios = scenarios(alloc)?;
    Ok(Reply::All { scenarios })
}

fn partly(alloc: Global) -> Result<Reply, Fail> {
    let scenarios = scenarios(alloc)?;
    Ok(Reply::Partly {
        first: 9,
        scenarios,
    })
}

fn kept(alloc: Global) -> Result<Reply, Fail> {
    let proof = proof(alloc)?;
    Ok(Reply::Proof { proof })
}

#[test]
fn copies_of_lists_and_proofs_are_equal(rt: HostRuntime) -> Result<(), Fail> {
    let alloc = rt.alloc();
    let read = [9, 1, 0, 2, 90, 1, 3, 90, 5, 7, 8, 91, 6, 9, 1, 91];
    copies(&rt, alloc, all(alloc), &[7, 0, 2, 90, 1, 3, 90])?;
    copies(&rt, alloc, partly(alloc), &[8, 9, 0, 2, 90, 1, 3, 90])?;
    copies(&rt, alloc, kept(alloc), &read)
}

fn spent(alloc: Global) -> Result<Reply, Fail> {
    Ok(Reply::Refused(Refusal::Spent(work(alloc)?)))
}

fn no_instance(alloc: Global) -> Result<Reply, Fail> {
    Ok(Reply::Refused(Refusal::NoInstance(proof(alloc)?)))
}

#[test]
fn copies_of_refusals_are_equal(rt: HostRuntime) -> Result<(), Fail> {
    let alloc = rt.alloc();
    let read = [10, 7, 40, 4, 3, 2, 1, 91, 0, 2, 90, 1, 3, 90];
    copies(&rt, alloc, spent(alloc), &read)?;
    let read = [10, 4, 1, 0, 2, 90, 1, 3, 90, 5, 7, 8, 91, 6, 9, 1, 91];
    copies(&rt, alloc, no_instance(alloc), &read)
}

// Whether a copy of the refusal has this place in its list, and holds nothing.
fn refuses(rt: &impl Abort, alloc: Global, refusal: Refusal, place: u32) -> Result<(), Fail> {
    copies(rt, alloc, Ok(Reply::Refused(refusal)), &[10, place])
}

#[test]
fn copies_of_plain_refusals_are_equal(rt: HostRuntime) -> Result<(), Fail> {
    refuses(&rt, rt.alloc(), Refusal::NoScenario, 1)?;
    refuses(&rt, rt.alloc(), Refusal::UnknownTuple, 2)?;
    refuses(&rt, rt.alloc(), Refusal::Present, 3)?;
    refuses(&rt, rt.alloc(), Refusal::Bottom, 5)?;
    refuses(&rt, rt.alloc(), Refusal::Deep, 6)?;
    refuses(&rt, rt.alloc(), Refusal::NoEnd, 8)
}

fn cells_given_back(alloc: Global) -> Result<Vec<u32>, Fail> {
    Ok(CellNumbers::of(vec![in alloc; 6, 2]?).into_numbers())
}

fn scenarios_given_back(alloc: Global) -> Result<usize, Fail> {
    Ok(scenarios(alloc)?.into_scenarios().len())
}

fn parts_given_back(alloc: Global) -> Result<usize, Fail> {
    Ok(parts(alloc)?.into_parts().len())
}

fn replies_given_back(alloc: Global) -> Result<usize, Fail> {
    Ok(
        Replies::of(vec![in alloc; Reply::Back]?)
            .into_replies()
            .len(),
    )
}

#[test]
fn lists_are_given_back(rt: HostRuntime) -> Result<(), Fail> {
    assert!(rt; cells_given_back(rt.alloc())?.as_slice() == [6, 2].as_slice());
    assert_eq!(rt; scenarios_given_back(rt.alloc())?, 2);
    assert_eq!(rt; parts_given_back(rt.alloc())?, 1);
    assert_eq!(rt; replies_given_back(rt.alloc())?, 1);
    Ok(())
}

fn script(alloc: Global) -> Result<SessionScript, Fail> {
    let name = Name::of(alloc, "s1")?;
    let commands = vec![in alloc; Command::Step(Step::Next), Command::All(3)]?;
    Ok(SessionScript {
        name,
        key: 4,
        budget: 20_000,
        commands: Commands::of(commands),
    })
}

// What a session asks for, in one line.
fn told_script(alloc: Global, script: &SessionScript) -> Result<String, Fail> {
    let commands = told_commands(alloc, script.commands.commands())?;
    let name = script.name.text();
    Ok(format!(in alloc; "{name} {} {}:{commands}", script.key, script.budget)?)
}

#[test]
fn copies_of_scripts_are_equal(rt: HostRuntime) -> Result<(), Fail> {
    let copy = script(rt.alloc())?.copy(rt.alloc())?;
    assert_eq!(rt;
        told_script(rt.alloc(), &copy)?.as_str(),
        "s1 4 20000: next all 3"
    );
    Ok(())
}

fn transcript(alloc: Global) -> Result<Transcript, Fail> {
    let replies = Replies::of(vec![in alloc; Reply::BudgetSet(5), Reply::Memory]?);
    let floors = scenarios(alloc)?;
    Ok(Transcript { replies, floors })
}

// The replies and the floors of a transcript.
fn numbers_of_transcript(alloc: Global, transcript: &Transcript) -> Result<Vec<u32>, AllocError> {
    let mut out = Vec::new(alloc);
    for reply in transcript.replies.replies() {
        push_reply(&mut out, reply)?;
    }
    push_scenarios(&mut out, transcript.floors.scenarios())?;
    Ok(out)
}

#[test]
fn copies_of_transcripts_are_equal(rt: HostRuntime) -> Result<(), Fail> {
    let copy = transcript(rt.alloc())?.copy(rt.alloc())?;
    let found = numbers_of_transcript(rt.alloc(), &copy)?;
    assert!(rt; found.as_slice() == [6, 5, 11, 0, 2, 90, 1, 3, 90].as_slice());
    Ok(())
}
