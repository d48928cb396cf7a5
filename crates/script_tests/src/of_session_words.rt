// The words of sessions at small values.
use crate::told_commands::{told_command, told_commands, told_step};
use session_words::{AtomName, AtomNames, Command, Commands, Step};
use std::alloc::{AllocError, Global};
use std::test::Fail;
use tuple_core::Name;

fn atom(alloc: Global, top: &str, place: u32) -> Result<AtomName, AllocError> {
    let top = Name::of(alloc, top)?;
    Ok(AtomName { top, place })
}

// The tuple `A$3->B_2$70000`.
fn tuple(alloc: Global) -> Result<AtomNames, AllocError> {
    let names = vec![in alloc; atom(alloc, "A", 3)?, atom(alloc, "B_2", 70000)?]?;
    Ok(AtomNames::of(names))
}

fn augment(alloc: Global) -> Result<Step, AllocError> {
    let relation = Name::of(alloc, "f")?;
    let tuple = tuple(alloc)?;
    Ok(Step::Augment { relation, tuple })
}

// Whether a copy of a step is told like this.
fn is_copied(alloc: Global, step: &Step, want: &str) -> Result<bool, Fail> {
    let copy = step.copy(alloc)?;
    Ok(told_step(alloc, &copy)?.as_str() == want)
}

#[test]
fn copies_of_steps_are_equal(rt: HostRuntime) -> Result<(), Fail> {
    let alloc = rt.alloc();
    assert!(rt; is_copied(alloc, &Step::Next, "next")?);
    assert!(rt; is_copied(alloc, &Step::Offers, "offers")?);
    assert!(rt; is_copied(alloc, &augment(alloc)?, "augment f A 3 B_2 70000")?);
    Ok(())
}

#[test]
fn copies_of_other_steps_are_equal(rt: HostRuntime) -> Result<(), Fail> {
    let alloc = rt.alloc();
    assert!(rt; is_copied(alloc, &Step::Back, "back")?);
    assert!(rt; is_copied(alloc, &Step::Budget(100_000), "budget 100000")?);
    assert!(rt; is_copied(alloc, &Step::Proof, "proof")?);
    Ok(())
}

fn push_step(commands: &mut Commands, step: Step) -> Result<(), Fail> {
    Ok(commands.push(Command::Step(step))?)
}

// All seven commands.
fn commands(alloc: Global) -> Result<Commands, Fail> {
    let mut commands = Commands::of(vec![in alloc; Command::All(7)]?);
    push_step(&mut commands, Step::Next)?;
    push_step(&mut commands, Step::Offers)?;
    push_step(&mut commands, augment(alloc)?)?;
    push_step(&mut commands, Step::Back)?;
    push_step(&mut commands, Step::Budget(100_000))?;
    push_step(&mut commands, Step::Proof)?;
    Ok(commands)
}

// Copies of these commands, each behind a blank.
fn told_copies(alloc: Global, commands: &[Command]) -> Result<String, Fail> {
    let mut text = String::new(alloc);
    for command in commands {
        push_copy(alloc, &mut text, command)?;
    }
    Ok(text)
}

fn push_copy(alloc: Global, text: &mut String, command: &Command) -> Result<(), Fail> {
    let copy = command.copy(alloc)?;
    let told = format!(in alloc; " {}", told_command(alloc, &copy)?)?;
    Ok(text.push_str(&told)?)
}

#[test]
fn copies_of_commands_are_equal(rt: HostRuntime) -> Result<(), Fail> {
    let copy = commands(rt.alloc())?.copy(rt.alloc())?;
    let want = " all 7 next offers augment f A 3 B_2 70000 back budget 100000 proof";
    assert_eq!(rt; told_commands(rt.alloc(), copy.commands())?.as_str(), want);
    assert_eq!(rt; told_copies(rt.alloc(), copy.commands())?.as_str(), want);
    assert_eq!(rt; copy.into_commands().len(), 7);
    Ok(())
}

// The places in a copy of the tuple, all together.
fn places(alloc: Global) -> Result<u64, AllocError> {
    let mut places = 0_u64;
    for name in tuple(alloc)?.copy(alloc)?.into_names() {
        places = places.wrapping_add(u64::from(name.copy(alloc)?.place));
    }
    Ok(places)
}

#[test]
fn names_are_given_back(rt: HostRuntime) -> Result<(), Fail> {
    assert_eq!(rt; places(rt.alloc())?, 70003);
    Ok(())
}
