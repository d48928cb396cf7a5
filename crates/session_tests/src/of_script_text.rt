// Texts of sessions, as they are worked out by hand.
ghost use Rattle.std.specs.Prelude.{◌≡◌, IfOk};

use crate::large_sets::translated;
use rel_formula::Scenario;
use sample_problems::scenario_of;
use script_text::{
    MOST_OUTPUT, fits_output, push_all, push_number_line, push_numbered, push_reply_at,
    push_scenario, session_text,
};
use session_rules::{CellNumbers, Refusal, Replies, Reply, Scenarios, Transcript};
use std::alloc::{AllocError, Global};
use std::test::Fail;
use translation::Translation;

// The text of a session that went back once.
fn back_alone(alloc: Global, made: &Translation) -> Result<Vec<u8>, AllocError> {
    let replies = Replies::of(vec![in alloc; Reply::Back]?);
    let floors = Scenarios::of(vec![in alloc; Scenario::new(alloc)]?);
    let transcript = Transcript { replies, floors };
    Ok(session_text(alloc, "a", made, &transcript)?)
}

#[test]
fn a_session_at_its_floors(rt: HostRuntime) -> Result<(), Fail> {
    let alloc = rt.alloc();
    let made = translated(alloc, &[0, 1])?;
    let text = back_alone(alloc, &made)?;
    let told: &[u8] = b"== a\nback\n";
    assert!(rt; text.as_slice() == told);
    Ok(())
}

// The cells of a scenario.
fn cells_in(alloc: Global, scenario: &Scenario) -> Result<CellNumbers, AllocError>
    ensures { IfOk result (λ cells. cells ≡ scenario.now) }
{
    let numbers = Vec::from_slice(alloc, scenario.numbers())?;
    Ok(CellNumbers::of(numbers))
}

// The lines of the offers of two cells.
fn two_offers(alloc: Global, made: &Translation) -> Result<Vec<u8>, AllocError> {
    let named = scenario_of(alloc, made.problem(), 0b11)?;
    let cells = cells_in(alloc, &named)?;
    let floor = Scenario::new(alloc);
    let mut out = Vec::new(alloc);
    push_reply_at(alloc, &mut out, made, &floor, &Reply::Offers { cells })?;
    Ok(out)
}

#[test]
fn offers_are_named(rt: HostRuntime) -> Result<(), Fail> {
    let alloc = rt.alloc();
    let made = translated(alloc, &[0, 1])?;
    let text = two_offers(alloc, &made)?;
    let told: &[u8] = b"offers 2\nA A$0\nA A$1\n";
    assert!(rt; text.as_slice() == told);
    Ok(())
}

// The lines of the third scenario alone, which has the second cell.
fn third_alone(alloc: Global, made: &Translation) -> Result<Vec<u8>, AllocError> {
    let third = scenario_of(alloc, made.problem(), 0b10)?;
    let scenarios = Scenarios::of(vec![in alloc; third]?);
    let floor = Scenario::new(alloc);
    let mut out = Vec::new(alloc);
    let first = 3;
    push_reply_at(
        alloc,
        &mut out,
        made,
        &floor,
        &Reply::Partly { first, scenarios },
    )?;
    Ok(out)
}

#[test]
fn listed_scenarios_have_numbers(rt: HostRuntime) -> Result<(), Fail> {
    let alloc = rt.alloc();
    let made = translated(alloc, &[0, 1])?;
    let text = third_alone(alloc, &made)?;
    let told: &[u8] = b"scenario 3\nA = {A$1}\npartly 1\n";
    assert!(rt; text.as_slice() == told);
    Ok(())
}

// The lines of replies that name no cells.
fn plain_replies(alloc: Global, made: &Translation) -> Result<Vec<u8>, AllocError> {
    let mut out = Vec::new(alloc);
    let floor = Scenario::new(alloc);
    push_reply_at(alloc, &mut out, made, &floor, &Reply::BudgetSet(7))?;
    push_reply_at(
        alloc,
        &mut out,
        made,
        &floor,
        &Reply::Refused(Refusal::Deep),
    )?;
    Ok(out)
}

#[test]
fn replies_without_cells(rt: HostRuntime) -> Result<(), Fail> {
    let alloc = rt.alloc();
    let made = translated(alloc, &[0, 1])?;
    let text = plain_replies(alloc, &made)?;
    let told: &[u8] = b"budget 7\nrefused deep\n";
    assert!(rt; text.as_slice() == told);
    Ok(())
}

// A scenario's lines under a number; numbered, under a word; and as all of a floor.
fn scenario_told(alloc: Global, made: &Translation) -> Result<Vec<u8>, AllocError> {
    let problem = made.problem();
    let second = scenario_of(alloc, problem, 0b10)?;
    let mut out = Vec::new(alloc);
    push_number_line(&mut out, b"class ", 12)?;
    push_scenario(alloc, &mut out, problem, &second)?;
    let scenarios = vec![in alloc; second]?;
    push_numbered(alloc, &mut out, problem, b"member ", 4, &scenarios)?;
    push_all(alloc, &mut out, problem, &scenarios)?;
    Ok(out)
}

#[test]
fn lines_for_other_texts(rt: HostRuntime) -> Result<(), Fail> {
    let alloc = rt.alloc();
    let made = translated(alloc, &[0, 1])?;
    let text = scenario_told(alloc, &made)?;
    let told: &[u8] = b"class 12\nA = {A$1}\nmember 4\nA = {A$1}\nlisted 1\nA = {A$1}\nend 1\n";
    assert!(rt; text.as_slice() == told);
    Ok(())
}

#[test]
fn an_output_has_a_limit(rt: HostRuntime) -> Result<(), Fail> {
    assert!(rt; fits_output(0, MOST_OUTPUT).is_ok());
    assert!(rt; fits_output(MOST_OUTPUT - 1, 1).is_ok());
    assert!(rt; fits_output(MOST_OUTPUT, 1).is_err());
    assert!(rt; fits_output(1, usize::MAX).is_err());
    assert!(rt; fits_output(MOST_OUTPUT + 1, 0).is_err());
    Ok(())
}
