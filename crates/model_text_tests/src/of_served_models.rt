// Models of scripts, whose commands and faults were worked out by hand from what a script and a model say.
use script_format::read_script;
use served_models::{Models, Purpose, ServedCommand, read_models};
use std::alloc::Global;
use std::fmt::Write;
use std::process::Abort;
use std::test::Fail;

// The number of a command, and how many cells its problem has.
fn push_command(text: &mut String, command: &ServedCommand) -> Result<(), Fail> {
    let cells = command.problem.cells();
    Ok(write!(text, "{} with {cells};", command.number)?)
}

fn push_commands(text: &mut String, commands: &[ServedCommand]) -> Result<(), Fail> {
    text.push_str("model ")?;
    for command in commands {
        push_command(text, command)?;
    }
    Ok(())
}

// The commands that are served of each model.
fn told(alloc: Global, models: &[Vec<ServedCommand>]) -> Result<String, Fail> {
    let mut text = String::new(alloc);
    for commands in models {
        push_commands(&mut text, commands)?;
    }
    Ok(text)
}

// What the models of a script are: the commands that are served of each, or the line that refuses the first.
fn told_models(alloc: Global, models: Models) -> Result<String, Fail> {
    match models {
        Models::Ready(models) => told(alloc, &models),
        Models::Refused(line) => Ok(String::from_utf8_lossy(alloc, &line)?),
    }
}

// What the models of these bytes are.
fn read(alloc: Global, script: &[u8]) -> Result<String, Fail> {
    let Ok(script) = read_script(alloc, script) else {
        return Err("no script")?;
    };
    let (models, sessions) = (script.models.entries(), script.sessions.entries());
    told_models(alloc, read_models(alloc, Purpose::Lists, models, sessions)?)
}

fn push_session(script: &mut String, place: usize, number: u32) -> Result<(), Fail> {
    Ok(write!(script, "== session s{place} m {number}\nnext\n")?)
}

// What the one model of this text is, where sessions are on commands of these numbers.
fn read_one(alloc: Global, model: &str, numbers: &[u32]) -> Result<String, Fail> {
    let mut script = format!(in alloc; "== model m\n{model}\n")?;
    for (place, number) in numbers.iter().enumerate() {
        push_session(&mut script, place, *number)?;
    }
    read(alloc, script.as_bytes())
}

// Whether these models have these lines, where a session is on the first command of each.
fn refuses(rt: &impl Abort, alloc: Global, rows: &[(&str, &str)]) -> Result<(), Fail> {
    for (model, line) in rows {
        let told = read_one(alloc, model, &[1])?;
        assert_eq!(rt; told.as_str(), *line);
    }
    Ok(())
}

#[test]
fn commands_are_in_order_of_their_numbers(rt: HostRuntime) -> Result<(), Fail> {
    let model = "sig A {} run {} for 2 run {} for 5 run {} for 3";
    let told = read_one(rt.alloc(), model, &[3, 1, 3, 1])?;
    assert_eq!(rt; told.as_str(), "model 1 with 2;3 with 3;");
    Ok(())
}

#[test]
fn commands_of_other_models_are_left_out(rt: HostRuntime) -> Result<(), Fail> {
    let script =
        b"== model m\nsig A {} run {} for 2\n== model n\nsig A {} run {} for 3 run {} for 4\n== model o\nsig A {}\n== session a n 2\nnext\n== session b m 1\nnext\n";
    let told = read(rt.alloc(), script)?;
    assert_eq!(rt; told.as_str(), "model 1 with 2;model 2 with 4;model ");
    Ok(())
}

#[test]
fn commands_without_sessions_are_not_refused(rt: HostRuntime) -> Result<(), Fail> {
    let model = "sig A {} sig B {} run {} for 2 B run {} for 2 run {} for 2 A";
    let told = read_one(rt.alloc(), model, &[2])?;
    assert_eq!(rt; told.as_str(), "model 2 with 4;");
    Ok(())
}

#[test]
fn faults_of_texts_are_told(rt: HostRuntime) -> Result<(), Fail> {
    refuses(
        &rt,
        rt.alloc(),
        &[
            (
                "sig A {} fact { A ? A }",
                "fault model m 1:19 bad_character\n",
            ),
            (
                "sig A {} run { always some A }",
                "fault model m 1:16 unsupported always\n",
            ),
            (
                "sig A {} fact { some B } run {}",
                "fault model m 1:22 unknown\n",
            ),
            (
                "sig A { f: set A } fact { A = f } run {}",
                "fault model m 1:29 arity\n",
            ),
            (
                "open util/ordering[B] as o sig A {} run {}",
                "fault model m 1:20 unknown\n",
            ),
        ],
    )
}

#[test]
fn faults_of_commands_are_told(rt: HostRuntime) -> Result<(), Fail> {
    refuses(
        &rt,
        rt.alloc(),
        &[
            ("sig A {}", "fault model m command 1 no_command\n"),
            (
                "sig A {} sig B {} run {} for 2 B",
                "fault model m command 1 no_scope\n",
            ),
            (
                "sig A { f: A -> A } run {} for 16",
                "fault model m command 1 too_many_cells\n",
            ),
            (
                "sig A {} run { all a, b, c, d: A | some A } for exactly 32 A",
                "fault model m command 1 too_many_terms\n",
            ),
        ],
    )
}

#[test]
fn the_first_command_without_a_problem_is_told(rt: HostRuntime) -> Result<(), Fail> {
    let model = "sig A {} sig B {} run {} for 2 run {} for 2 B run {} for 2 A";
    let told = read_one(rt.alloc(), model, &[4, 3, 2, 1])?;
    assert_eq!(rt; told.as_str(), "fault model m command 2 no_scope\n");
    Ok(())
}

#[test]
fn the_first_refused_model_is_told(rt: HostRuntime) -> Result<(), Fail> {
    let script =
        b"== model m\nsig A {} run {}\n== model n\nsig A {}\n== model o\nsig\n== session a m 1\nnext\n== session b n 3\nnext\n";
    let told = read(rt.alloc(), script)?;
    assert_eq!(rt; told.as_str(), "fault model n command 3 no_command\n");
    Ok(())
}

#[test]
fn a_model_is_read_where_no_session_is_on_it(rt: HostRuntime) -> Result<(), Fail> {
    let told = read_one(rt.alloc(), "sig A {} sig B {} run {} for 2 B", &[])?;
    assert_eq!(rt; told.as_str(), "model ");
    let refused = read_one(rt.alloc(), "sig", &[])?;
    assert_eq!(rt; refused.as_str(), "fault model m 1:4 end_of_text\n");
    Ok(())
}
