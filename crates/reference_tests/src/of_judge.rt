// That the judge lets a right run pass, and refuses what is wrong: two sets P and Q of two atoms, where Q is not empty. The cells
// are P of the first atom, P of the second, Q of the first, Q of the second; Q of the first is due.
ghost use Rattle.std.specs.Prelude.{◌≡◌, []};

use crate::asks::{Ask, Asked, ENOUGH};
use crate::judge::Judge;
use refutation_check::Log;
use rel_formula::Problem;
use sample_problems::{scenario_of, two_sets_of};
use session_rules::{CellNumbers, EndProof, Parts, Refusal, Reply, Scenarios, WorkDone};
use std::alloc::{AllocError, Global};
use std::process::Abort;
use std::test::Fail;

// An answer, with the bits of cells. An end and a proof have so many imported steps.
#[derive(Clone, Copy)]
enum Told {
    Shown(u32, u32),
    End(u32, u32),
    Offers(&'static [u32]),
    Augmented(u32),
    Back,
    Budget(u32),
    Proof(u32),
    NoScenario,
    Present,
    Bottom,
    NoEnd,
    Spent(u32),
}

fn none(alloc: Global) -> Scenarios
    ensures { result ≡ [] }
{
    Scenarios::of(Vec::new(alloc))
}

fn proof(alloc: Global, imported: u32) -> Result<EndProof, AllocError> {
    EndProof::of(
        alloc,
        imported,
        none(alloc),
        Log::new(alloc),
        Log::new(alloc),
    )
}

fn spent(alloc: Global, budget: u32) -> Refusal {
    Refusal::Spent(WorkDone {
        budget,
        parts: Parts::of(Vec::new(alloc)),
        copies: none(alloc),
    })
}

fn reply_of(alloc: Global, problem: &Problem, told: Told) -> Result<Reply, AllocError> {
    match told {
        Told::Shown(number, bits) => Ok(Reply::Shown {
            number,
            scenario: scenario_of(alloc, problem, bits)?,
        }),
        Told::End(number, imported) => Ok(Reply::End {
            number,
            proof: proof(alloc, imported)?,
        }),
        Told::Offers(cells) => Ok(Reply::Offers {
            cells: CellNumbers::of(cells.to_vec(alloc)?),
        }),
        Told::Augmented(bits) => Ok(Reply::Augmented {
            floor: scenario_of(alloc, problem, bits)?,
        }),
        Told::Back => Ok(Reply::Back),
        Told::Budget(budget) => Ok(Reply::BudgetSet(budget)),
        Told::Proof(imported) => Ok(Reply::Proof {
            proof: proof(alloc, imported)?,
        }),
        Told::NoScenario => Ok(Reply::Refused(Refusal::NoScenario)),
        Told::Present => Ok(Reply::Refused(Refusal::Present)),
        Told::Bottom => Ok(Reply::Refused(Refusal::Bottom)),
        Told::NoEnd => Ok(Reply::Refused(Refusal::NoEnd)),
        Told::Spent(budget) => Ok(Reply::Refused(spent(alloc, budget))),
    }
}

// How many of these answers the judge lets pass, up to the first that it refuses.
fn passed(alloc: Global, exchanges: &[(Ask, Told)]) -> Result<usize, Fail> {
    let problem = two_sets_of(alloc, &[0, 1])?;
    if problem.cells() > 12 {
        return Err(Fail::new("too many cells"));
    }
    let mut judge = Judge::new(alloc, ENOUGH);
    for (place, exchange) in exchanges.iter().enumerate() {
        let (ask, told) = *exchange;
        let reply = reply_of(alloc, &problem, told)?;
        if !judge.may_answer(alloc, &problem, ask, &reply)? {
            return Ok(place);
        }
        judge.take(alloc, &reply)?;
    }
    Ok(exchanges.len())
}

// Adds P of the first atom.
const P_OF_FIRST: Ask = Ask::Augment(Asked {
    relation: 1,
    first: 0,
    second: None,
});

// The first scenario.
const SHOWN: (Ask, Told) = (Ask::Next, Told::Shown(1, 0b0100));

// The floor above it.
const UP: (Ask, Told) = (P_OF_FIRST, Told::Augmented(0b0101));

// The end of the bottom.
const END: (Ask, Told) = (Ask::Next, Told::End(1, 5));

const BACK: (Ask, Told) = (Ask::Back, Told::Back);

#[test]
fn a_run(rt: HostRuntime) -> Result<(), Fail> {
    let exchanges = [
        (Ask::Offers, Told::NoScenario),
        (Ask::Proof, Told::NoEnd),
        (Ask::Back, Told::Bottom),
        SHOWN,
        (Ask::Offers, Told::Offers(&[0, 1, 3])),
        END,
        (Ask::Proof, Told::Proof(5)),
        UP,
        (Ask::Next, Told::Shown(1, 0b0101)),
        (P_OF_FIRST, Told::Present),
        (Ask::Budget(2), Told::Budget(2)),
        (Ask::Next, Told::Spent(2)),
        (Ask::Next, Told::End(1, 6)),
        BACK,
        END,
    ];
    assert_eq!(rt; passed(rt.alloc(), exchanges.as_slice())?, 15);
    Ok(())
}

// The judge refuses the last of these answers, and no other.
fn refuses_the_last(rt: &impl Abort, alloc: Global, exchanges: &[(Ask, Told)]) -> Result<(), Fail> {
    let count = passed(alloc, exchanges)?;
    assert_eq!(rt; count.checked_add(1), Some(exchanges.len()));
    Ok(())
}

// What is not minimal, not settled, or has the number of another.
#[test]
fn not_due(rt: HostRuntime) -> Result<(), Fail> {
    let wrong = [
        Told::Shown(1, 0b0000),
        Told::Shown(1, 0b0101),
        Told::Shown(1, 0b1000),
        Told::Shown(2, 0b0100),
    ];
    for told in wrong {
        refuses_the_last(&rt, rt.alloc(), &[(Ask::Next, told)])?;
    }
    Ok(())
}

// What was shown is not shown again, nor after coming back and going up to the same floor.
#[test]
fn shown_again(rt: HostRuntime) -> Result<(), Fail> {
    let alloc = rt.alloc();
    refuses_the_last(&rt, alloc, &[SHOWN, (Ask::Next, Told::Shown(2, 0b0100))])?;
    let first = (Ask::Next, Told::Shown(1, 0b0101));
    refuses_the_last(&rt, alloc, &[SHOWN, UP, first, BACK, UP, first])?;
    refuses_the_last(
        &rt,
        alloc,
        &[
            SHOWN,
            UP,
            first,
            BACK,
            UP,
            (Ask::Next, Told::Shown(2, 0b0101)),
        ],
    )
}

// An end where something is due, or with another number or proof than it had.
#[test]
fn wrong_ends(rt: HostRuntime) -> Result<(), Fail> {
    let alloc = rt.alloc();
    refuses_the_last(&rt, alloc, &[(Ask::Next, Told::End(0, 5))])?;
    refuses_the_last(&rt, alloc, &[SHOWN, (Ask::Next, Told::End(2, 5))])?;
    refuses_the_last(&rt, alloc, &[SHOWN, END, (Ask::Next, Told::End(1, 6))])
}

// A proof before the end, another one than that of the end, and those of another floor.
#[test]
fn wrong_proofs(rt: HostRuntime) -> Result<(), Fail> {
    let alloc = rt.alloc();
    let proof = (Ask::Proof, Told::Proof(5));
    refuses_the_last(&rt, alloc, &[SHOWN, proof])?;
    refuses_the_last(&rt, alloc, &[SHOWN, END, (Ask::Proof, Told::Proof(6))])?;
    refuses_the_last(&rt, alloc, &[SHOWN, END, UP, proof])?;
    refuses_the_last(&rt, alloc, &[SHOWN, END, UP, (Ask::Next, Told::End(0, 5))])
}

// An offer too few, one too many, and offers out of order.
#[test]
fn wrong_offers(rt: HostRuntime) -> Result<(), Fail> {
    let offers: [&'static [u32]; 4] = [&[0, 1], &[0, 1, 2, 3], &[0, 3, 1], &[]];
    for cells in offers {
        refuses_the_last(
            &rt,
            rt.alloc(),
            &[SHOWN, (Ask::Offers, Told::Offers(cells))],
        )?;
    }
    Ok(())
}

// Another floor than was asked for, or none; and the way back from the bottom.
#[test]
fn wrong_floors(rt: HostRuntime) -> Result<(), Fail> {
    let alloc = rt.alloc();
    refuses_the_last(&rt, alloc, &[SHOWN, (P_OF_FIRST, Told::Augmented(0b0110))])?;
    refuses_the_last(&rt, alloc, &[SHOWN, (P_OF_FIRST, Told::Present)])?;
    refuses_the_last(&rt, alloc, &[BACK])
}

// A budget that is enough, one that is not the session's, and one where the answer is known.
#[test]
fn wrongly_spent(rt: HostRuntime) -> Result<(), Fail> {
    let alloc = rt.alloc();
    let small = (Ask::Budget(3), Told::Budget(3));
    refuses_the_last(&rt, alloc, &[(Ask::Next, Told::Spent(ENOUGH))])?;
    refuses_the_last(&rt, alloc, &[small, (Ask::Next, Told::Spent(2))])?;
    refuses_the_last(
        &rt,
        alloc,
        &[SHOWN, END, small, (Ask::Next, Told::Spent(3))],
    )
}
