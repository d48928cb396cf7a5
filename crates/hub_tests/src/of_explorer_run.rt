// Sessions of scripts on worker threads: the sets A of three atoms that are empty, or have two atoms or more.
ghost use Rattle.std.specs.Prelude.{◌≡◌, ◌≤◌, ◌<◌, ◌∷◌, ◌^◌, [], All, IfOk, length};
ghost use Rattle.rel_formula.specs.Shape.{IsProper};
ghost use Rattle.rel_formula.specs.View.{formula_tree};
ghost use Rattle.script_format.specs.Limits.{IsAllowed, asked_by};
ghost use Rattle.explorer_run.specs.Served.{IsServable, IsServableScript, values_of};
ghost use Rattle.explorer_run.specs.Seats.{IsRoot, StaysRoot};

use cnf_core::Cnf;
use explorer_run::{Explorer, Gate, OpenGate, Served, SessionScript, StepCount, serve_sessions};
use hub_lock::Pass;
use hub_state::{Entry, Event, Hub};
use rel_formula::{Expression, Formula, Problem, Quantifier, Scenario};
use sample_problems::{is_translatable, set_of};
use session_rules::Reply;
use session_words::{AtomName, AtomNames, Command, Commands, Step};
use std::alloc::{AllocError, Global};
use std::sync::atomic::{AtomicBool, Ordering};
use std::sync::{Arc, Wait};
use std::test::Fail;
use std::thread::Threads;
use translation::Translation;
use tuple_core::Name;

// For each atom there are two or more.
fn none_or_two(alloc: Global) -> Result<Formula, AllocError>
    ensures { IfOk result (λ f. IsProper (1 ∷ []) 0 (formula_tree f)) }
{
    let enough = Box::new(alloc, Formula::AtLeast(2, Expression::Rel(0)))?;
    Ok(Formula::Quantified(Quantifier::All, Expression::Rel(0), enough))
}

// The sets of three atoms that are empty, or have two atoms or more.
fn sets(alloc: Global) -> Result<Problem, Fail>
    ensures { IfOk result IsServable }
{
    sets_of(alloc, &[0, 1, 2])
}

// Such sets of the atoms at these places.
fn sets_of(alloc: Global, places: &[u16]) -> Result<Problem, Fail>
    ensures { IfOk result IsServable }
{
    let problem = set_of(alloc, places, none_or_two(alloc)?)?;
    if is_translatable(alloc, &problem)? {
        Ok(problem)
    } else {
        Err("not translatable")?
    }
}

// The set and the middle atom of it.
fn middle_atom(alloc: Global) -> Result<(Name, AtomNames), AllocError> {
    let relation = Name::of(alloc, "A")?;
    let top = Name::of(alloc, "A")?;
    let tuple = AtomNames::of(vec![in alloc; AtomName { top, place: 1 }]?);
    Ok((relation, tuple))
}

// To the floor of the middle atom and back.
fn commands(alloc: Global) -> Result<Vec<Command>, AllocError>
    ensures allowed { IfOk result (λ commands. All IsAllowed commands.items) }
    ensures asked { IfOk result (λ commands. asked_by commands.items ≤ 20000) }
    ensures few { IfOk result (λ commands. length commands.items ≡ 9) }
{
    let (relation, tuple) = middle_atom(alloc)?;
    let commands = vec![in alloc;
        Command::Step(Step::Next),
        Command::Step(Step::Offers),
        Command::Step(Step::Augment { relation, tuple }),
        Command::All(1),
        Command::All(3),
        Command::Step(Step::Proof),
        Command::Step(Step::Back),
        Command::Step(Step::Budget(500)),
        Command::Step(Step::Next),
    ]?;
    Ok(commands)
}

// A session with these commands.
fn session(alloc: Global, key: u32) -> Result<SessionScript, AllocError>
    requires { key < 2 }
    ensures { IfOk result (IsServableScript 2) }
{
    let commands = Commands::of(commands(alloc)?);
    Ok(SessionScript {
        name: Name::of(alloc, "s")?,
        key,
        budget: 1000,
        commands,
    })
}

// Five such sessions, on two keys in turns.
fn five_sessions(alloc: Global) -> Result<Vec<SessionScript>, AllocError>
    ensures { IfOk result (λ scripts. All (IsServableScript 2) scripts.items × (length scripts.items < 100)) }
{
    let scripts = vec![in alloc;
        session(alloc, 0)?,
        session(alloc, 1)?,
        session(alloc, 0)?,
        session(alloc, 1)?,
        session(alloc, 0)?,
    ]?;
    Ok(scripts)
}

// Twice the same problem.
fn two_problems(alloc: Global) -> Result<Vec<Problem>, Fail>
    ensures { IfOk result (λ problems. All IsServable problems.items × (length problems.items ≡ 2)) }
{
    let problems = vec![in alloc; sets(alloc)?, sets(alloc)?]?;
    Ok(problems)
}

// What a reply says.
#[derive(Clone, Copy, PartialEq, Eq)]
enum Told {
    Shown,
    Ended,
    Offers,
    Augmented,
    Back,
    Budget,
    All,
    Partly,
    Proof,
    Other,
}

// What a reply says, with a number, and sets of the three cells, each an octal digit; 0 where there is none.
type Row = (Told, u32, u32);

fn digit(cells: &[u32]) -> u32 {
    let mut bits = 0;
    for cell in cells {
        if *cell < 3 {
            bits |= 1 << *cell;
        }
    }
    bits
}

fn digits(scenarios: &[Scenario]) -> u32 {
    let mut all = 0;
    for scenario in scenarios {
        all = all << 3 | digit(scenario.numbers());
    }
    all
}

fn told_of(reply: &Reply) -> Row {
    match reply {
        Reply::Shown { number, scenario } => (Told::Shown, *number, digit(scenario.numbers())),
        Reply::End { number, .. } => (Told::Ended, *number, 0),
        Reply::Offers { cells } => (Told::Offers, 0, digit(cells.numbers())),
        Reply::Augmented { floor } => (Told::Augmented, 0, digit(floor.numbers())),
        Reply::Back => (Told::Back, 0, 0),
        Reply::BudgetSet(budget) => (Told::Budget, *budget, 0),
        Reply::All { scenarios } => (Told::All, 0, digits(scenarios.scenarios())),
        Reply::Partly { first, scenarios } => (Told::Partly, *first, count(scenarios.scenarios())),
        Reply::Proof { .. } => (Told::Proof, 0, 0),
        Reply::Refused(_) => (Told::Other, 0, 0),
        Reply::Memory => (Told::Other, 0, 0),
    }
}

// How many scenarios there are, up to 100.
fn count(scenarios: &[Scenario]) -> u32 {
    scenarios.len().min(100) as u32
}

fn are_told(replies: &[Reply], rows: &[Row]) -> bool {
    replies.len() == rows.len()
        && replies
            .iter()
            .zip(rows)
            .all(|(reply, row)| told_of(reply) == *row)
}

// Of all the sets the empty one is minimal, and of those with the middle atom the two with one neighbour of it. Of a part of
// the answer, the number of scenarios.
const TO_THE_END: [Row; 9] = [
    (Told::Shown, 1, 0o0),
    (Told::Offers, 0, 0o7),
    (Told::Augmented, 0, 0o2),
    (Told::Partly, 1, 1),
    (Told::All, 0, 0o36),
    (Told::Proof, 0, 0),
    (Told::Back, 0, 0),
    (Told::Budget, 500, 0),
    (Told::Ended, 1, 0),
];

// Serves the five sessions.
fn served<R: Threads + Wait + Sync>(rt: &R, alloc: Global, workers: u32) -> Result<Served, Fail>
    requires { (1 ≤ workers) × (workers ≤ 16) }
{
    let problems = two_problems(alloc)?;
    let scripts = five_sessions(alloc)?;
    let mut count = StepCount::new();
    Ok(serve_sessions(
        rt,
        alloc,
        &OpenGate,
        problems,
        scripts.as_slice(),
        workers,
        &mut count,
    )?)
}

#[test]
fn five_sessions_to_their_ends(rt: HostRuntime) -> Result<(), Fail> {
    for workers in [1_u32, 4, 16] {
        let served = served(&rt, rt.alloc(), workers)?;
        assert!(rt; served.translations.len() == 2 && served.transcripts.len() == 5);
        for transcript in &served.transcripts {
            let floors = transcript.floors.scenarios();
            assert!(rt; are_told(transcript.replies.replies(), &TO_THE_END));
            assert!(rt; floors.len() == 9 && digits(floors) == 0o000_222_200);
        }
    }
    Ok(())
}

fn is_published(entry: &Entry, key: u32) -> bool {
    match &entry.event {
        Event::Published { key: of } => entry.by == 0 && *of == key,
        _ => false,
    }
}

fn is_opened(entry: &Entry, by: u32, key: u32) -> bool {
    match &entry.event {
        Event::Opened { key: of, budget } => entry.by == by && *of == key && *budget == 1000,
        _ => false,
    }
}

// How many steps the entry adds to the key's pool.
fn added(entry: &Entry, key: u32) -> usize {
    match &entry.event {
        Event::Shared { key: of, steps } if *of == key => steps.steps().len(),
        _ => 0,
    }
}

// Whether the entry, if it is an import of the key, names so many steps.
fn imports(entry: &Entry, key: u32, steps: usize) -> bool {
    match &entry.event {
        Event::Imported {
            key: of,
            steps: named,
        } if *of == key => *named as usize == steps,
        _ => true,
    }
}

// Whether each import of the key names all steps that were shared before it.
fn imports_are_whole(entries: &[Entry], key: u32) -> bool {
    let mut shared = 0_usize;
    for entry in entries {
        if !imports(entry, key, shared) {
            return false;
        }
        shared = shared.saturating_add(added(entry, key));
    }
    true
}

// The journal that the five sessions leave.
fn journal_of<R: Threads + Wait + Sync>(rt: &R, alloc: Global, workers: u32) -> Result<Hub, Fail>
    requires { (1 ≤ workers) × (workers ≤ 16) }
{
    let problems = two_problems(alloc)?;
    let scripts = five_sessions(alloc)?;
    match Explorer::new(rt, alloc, problems, &OpenGate, workers) {
        Ok((explorer, mut root)) => {
            let mut count = StepCount::new();
            let served = explorer.serve_all(
                rt,
                alloc,
                &mut root,
                scripts.as_slice(),
                workers,
                &mut count,
            );
            let (hub, _) = explorer.finish(root);
            served?;
            Ok(hub)
        }
        Err(error) => Err(error)?,
    }
}

#[test]
fn five_sessions_leave_one_journal(rt: HostRuntime) -> Result<(), Fail> {
    for workers in [1_u32, 4, 16] {
        let hub = journal_of(&rt, rt.alloc(), workers)?;
        let entries = hub.journal();
        assert_eq!(rt; entries.iter().filter(|entry| entry.by == 0).count(), 2);
        for key in 0..2_u32 {
            assert_eq!(rt;
                entries
                    .iter()
                    .filter(|entry| is_published(entry, key))
                    .count(),
                1
            );
            assert!(rt; imports_are_whole(entries, key));
        }
        for by in 1..6_u32 {
            let key = (by - 1) % 2;
            assert_eq!(rt;
                entries
                    .iter()
                    .filter(|entry| is_opened(entry, by, key))
                    .count(),
                1
            );
        }
    }
    Ok(())
}

// Opens a session on the first key, asks it for a scenario, and takes its pass back.
fn one_reply<R: Wait>(
    rt: &R,
    alloc: Global,
    explorer: &Explorer<OpenGate>,
    root: &mut Pass<Hub>,
) -> Result<Reply, AllocError>
    requires root { IsRoot explorer.now.lock (values_of explorer.now.translations.items) root.old }
    requires key { 0 < length explorer.now.translations.items }
    requires first { root.old.view.made ≡ 0 }
    ensures root { StaysRoot explorer.now.lock (values_of explorer.now.translations.items) root.old root.new }
    ensures live { root.new.view.live ≡ root.old.view.live }
{
    let (mut pass, mut session) = explorer.open(rt, alloc, root, 0, 1000)?;
    let next = Command::Step(Step::Next);
    let mut count = StepCount::new();
    let reply = explorer.command(rt, alloc, &mut pass, &mut session, 0, 0, &next, &mut count);
    explorer.retire(root, pass);
    Ok(reply)
}

#[test]
fn a_session_is_opened_and_taken_back(rt: HostRuntime) -> Result<(), Fail> {
    let alloc = rt.alloc();
    let problems = two_problems(alloc)?;
    match Explorer::new(&rt, alloc, problems, &OpenGate, 2) {
        Ok((explorer, mut root)) => {
            let replied = one_reply(&rt, alloc, &explorer, &mut root);
            let (hub, _) = explorer.finish(root);
            assert!(rt; told_of(&replied?) == (Told::Shown, 1, 0));
            assert_eq!(rt; hub.journal().len(), 5);
            Ok(())
        }
        Err(error) => Err(error)?,
    }
}

// A gate that holds session 0 before its first command until session 1 has passed its first, for so many looks at most.
#[derive(Drop)]
struct Holding {
    looks: u32,
    passed: AtomicBool,
    gave_up: AtomicBool,
}

impl Holding {
    fn new(looks: u32) -> Holding {
        Holding {
            looks,
            passed: AtomicBool::new(false),
            gave_up: AtomicBool::new(false),
        }
    }

    fn hold(&self) {
        for _ in 0..self.looks {
            if self.passed.load(Ordering::SeqCst) {
                return;
            }
        }
        self.gave_up.store(true, Ordering::SeqCst);
    }
}

impl Gate for Holding {
    fn pass(&self, session: u32, command: u32) {
        match (session, command) {
            (0, 0) => self.hold(),
            (1, 0) => self.passed.store(true, Ordering::SeqCst),
            _ => {}
        }
    }
}

// Whether the gate let session 0 go on behind session 1, where two sessions are served by so many workers.
fn goes_on<R: Threads + Wait + Sync>(
    rt: &R,
    alloc: Global,
    workers: u32,
    looks: u32,
) -> Result<bool, Fail>
    requires { (1 ≤ workers) × (workers ≤ 16) }
{
    let problems = two_problems(alloc)?;
    let scripts = vec![in alloc; session(alloc, 0)?, session(alloc, 0)?]?;
    let gate = Holding::new(looks);
    let mut count = StepCount::new();
    let served = serve_sessions(
        rt,
        alloc,
        &gate,
        problems,
        scripts.as_slice(),
        workers,
        &mut count,
    )?;
    let gave_up = gate.gave_up.load(Ordering::SeqCst);
    Ok(served.transcripts.len() == 2 && !gave_up)
}

#[test]
fn two_workers_serve_side_by_side(rt: HostRuntime) -> Result<(), Fail> {
    assert!(rt; goes_on(&rt, rt.alloc(), 2, 400_000_000)?);
    Ok(())
}

#[test]
fn one_worker_serves_in_order(rt: HostRuntime) -> Result<(), Fail> {
    assert!(rt; !goes_on(&rt, rt.alloc(), 1, 1000)?);
    Ok(())
}

// The sets of one atom to five.
fn five_problems(alloc: Global) -> Result<Vec<Problem>, Fail>
    ensures { IfOk result (λ problems. All IsServable problems.items × (length problems.items ≡ 5)) }
{
    let problems = vec![in alloc;
        sets_of(alloc, &[0])?,
        sets_of(alloc, &[0, 1])?,
        sets_of(alloc, &[0, 1, 2])?,
        sets_of(alloc, &[0, 1, 2, 3])?,
        sets_of(alloc, &[0, 1, 2, 3, 4])?,
    ]?;
    Ok(problems)
}

// The translations of the five problems, made by so many workers at most.
fn translations<R: Threads + Wait + Sync>(
    rt: &R,
    alloc: Global,
    workers: u32,
) -> Result<Vec<Arc<Translation>>, Fail>
    requires { (1 ≤ workers) × (workers ≤ 16) }
{
    let problems = five_problems(alloc)?;
    match Explorer::new(rt, alloc, problems, &OpenGate, workers) {
        Ok((explorer, root)) => {
            let (_hub, translations) = explorer.finish(root);
            Ok(translations)
        }
        Err(error) => Err(error)?,
    }
}

fn are_equal(first: &Cnf, second: &Cnf) -> bool {
    first.vars() == second.vars()
        && first.len() == second.len()
        && first
            .clauses()
            .iter()
            .zip(second.clauses())
            .all(|(one, other)| one.lits() == other.lits())
}

#[test]
fn workers_make_the_translations_that_one_makes(rt: HostRuntime) -> Result<(), Fail> {
    let alone = translations(&rt, rt.alloc(), 1)?;
    assert!(rt; alone.len() == 5 && !are_equal(alone[0].cnf(), alone[4].cnf()));
    for workers in [2_u32, 3, 4, 16] {
        let beside = translations(&rt, rt.alloc(), workers)?;
        assert!(rt; beside.len() == 5);
        for (one, other) in alone.iter().zip(&beside) {
            assert!(rt; are_equal(one.cnf(), other.cnf()));
        }
    }
    Ok(())
}
