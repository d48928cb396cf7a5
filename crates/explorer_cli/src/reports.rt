// What `assert` and `facts` answer.
ghost use Rattle.std.specs.Prelude.{◌≡◌, ◌≤◌, ◌⊎◌, ℕ, IfOk};
ghost use Rattle.command_words.specs.declared.reading.Command.TheVariants.{Assert, Facts};
ghost use Rattle.script_format.specs.declared.entries.Script.{Script as ScriptData};
ghost use Rattle.decision_reports.specs.Reports.{IsAssertionReport};
ghost use Rattle.decision_reports.specs.FactReports.{IsFactReport};
ghost use Rattle.explorer_cli.specs.Outcome.{IsAnswerTo, IsAnswerToScript};

use crate::scripts::script_of;
use decision_reports::assertions::{Report, assertions_of};
use decision_reports::fact_sets::fact_sets_of;
use lowering_rules::LowerStop;
use outside_io::Status;
use proof_command::Answer;
use std::alloc::Global;

/// The answer of `assert` to the bytes of its input, where each command is decided with this budget.
pub fn answer_of_assert(alloc: Global, budget: u32, bytes: &[u8]) -> Result<Answer, LowerStop>
    requires { budget ≤ 100000 }
    ensures answer { IfOk result (λ a. IsAnswerTo (Assert budget) bytes.now a.status a.text.items) }
    ensures status { IfOk result (λ a. (a.status ≡ Status.Done) ⊎ (a.status ≡ Status.InputRefused) ⊎ (a.status ≡ Status.ModelRefused)) }
{
    match script_of(alloc, bytes)? {
        Ok(script) => {
            let report = assertions_of(alloc, budget, script.models.entries())?;
            Ok(answer_of_report(report))
        }
        Err(answer) => Ok(answer),
    }
}

/// The answer of `facts` to the bytes of its input, where each search has this budget.
pub fn answer_of_facts(alloc: Global, budget: u32, bytes: &[u8]) -> Result<Answer, LowerStop>
    requires { budget ≤ 100000 }
    ensures answer { IfOk result (λ a. IsAnswerTo (Facts budget) bytes.now a.status a.text.items) }
    ensures status { IfOk result (λ a. (a.status ≡ Status.Done) ⊎ (a.status ≡ Status.InputRefused) ⊎ (a.status ≡ Status.ModelRefused)) }
{
    match script_of(alloc, bytes)? {
        Ok(script) => {
            let report = fact_sets_of(alloc, budget, script.models.entries())?;
            Ok(answer_of_report(report))
        }
        Err(answer) => Ok(answer),
    }
}

// The answer that such a report is.
fn answer_of_report(report: Report) -> Answer
    ensures assertions { (budget : ℕ) (s : ScriptData) → IsAssertionReport budget s.models report → IsAnswerToScript (Assert budget) s result.status result.text.items }
    ensures facts { (budget : ℕ) (s : ScriptData) → IsFactReport budget s.models report → IsAnswerToScript (Facts budget) s result.status result.text.items }
    ensures status { (result.status ≡ Status.Done) ⊎ (result.status ≡ Status.ModelRefused) }
{
    match report {
        Report::Told(text) => Answer {
            status: Status::Done,
            text,
        },
        Report::Refused(line) => Answer {
            status: Status::ModelRefused,
            text: line,
        },
    }
}
