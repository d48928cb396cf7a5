// The lines of several scenarios.
ghost use Rattle.std.specs.Prelude.{◌≡◌, ◌++◌, ℕ, List, length, codes, decimal, All, IfOk};
ghost use Rattle.rel_formula.specs.Instance.{AreCells};
ghost use Rattle.script_text.specs.Replies.{AreNumbered};

use crate::numbers::push_number_line;
use crate::scenario_lines::push_scenario;
use rel_formula::{Problem, Scenario};
use std::alloc::{AllocError, Global};

/// Adds the lines of all scenarios of a floor, and how many there are. They are the problem's. The error comes only for want of
/// memory.
pub fn push_all(
    alloc: Global,
    out: &mut Vec<u8>,
    problem: &Problem,
    scenarios: &[Scenario],
) -> Result<(), AllocError>
    requires { All (AreCells problem.now) scenarios.now }
    ensures { IfOk result (λ _. (lines : List ℕ) × AreNumbered problem.now (codes "listed ") 1 scenarios.now lines × (out.new.items ≡ out.old.items ++ (lines ++ codes "end " ++ decimal (length scenarios.now) ++ codes "\n"))) }
{
    push_numbered(alloc, out, problem, b"listed ", 1, scenarios)?;
    push_number_line(out, b"end ", scenarios.len() as u64)?;
    Ok(())
}

/// Adds the lines of the scenarios that were shown now, from the number of the first on, and how many there are. They are
/// the problem's.
pub fn push_partly(
    alloc: Global,
    out: &mut Vec<u8>,
    problem: &Problem,
    first: u32,
    scenarios: &[Scenario],
) -> Result<(), AllocError>
    requires { All (AreCells problem.now) scenarios.now }
    ensures { IfOk result (λ _. (lines : List ℕ) × AreNumbered problem.now (codes "scenario ") first scenarios.now lines × (out.new.items ≡ out.old.items ++ (lines ++ codes "partly " ++ decimal (length scenarios.now) ++ codes "\n"))) }
{
    push_numbered(alloc, out, problem, b"scenario ", first, scenarios)?;
    push_number_line(out, b"partly ", scenarios.len() as u64)?;
    Ok(())
}

/// Adds the lines of scenarios, each under a line of a word, with the space behind it, and its number, from the first one on.
/// They are the problem's. The error comes only for want of memory.
pub fn push_numbered(
    alloc: Global,
    out: &mut Vec<u8>,
    problem: &Problem,
    word: &[u8],
    first: u32,
    scenarios: &[Scenario],
) -> Result<(), AllocError>
    requires { All (AreCells problem.now) scenarios.now }
    ensures { IfOk result (λ _. (lines : List ℕ) × AreNumbered problem.now word.now first scenarios.now lines × (out.new.items ≡ out.old.items ++ lines)) }
{
    for (place, scenario) in scenarios.iter().enumerate() {
        push_number_line(out, word, u64::from(first) + place as u64)?;
        push_scenario(alloc, out, problem, scenario)?;
    }
    Ok(())
}
