// Sessions whose searches take more than a step: the expected lines were worked out by hand from what models mean.
use crate::running::{grown, run, serves};
use std::alloc::Global;
use std::fmt::Write;
use std::test::Fail;

#[test]
fn lists_what_differs_by_more_than_names(rt: HostRuntime) -> Result<(), Fail> {
    serves(
        &rt,
        rt.alloc(),
        &[
            (
                "sig A { f: set A } run { some f } for 2",
                "all 10\n",
                "listed 1\nA = {A$0, A$1}\nf = {A$0->A$1}\nlisted 2\nA = {A$0}\nf = {A$0->A$0}\nend 2\n",
            ),
            (
                "sig A { f: set A } run { some disj a, b, c: A | a->b + b->c in f } for exactly 3 A",
                "all 10\n",
                "listed 1\nA = {A$0, A$1, A$2}\nf = {A$0->A$1, A$1->A$2}\nlisted 2\nA = {A$0, A$1, A$2}\nf = {A$0->A$1, A$2->A$0}\nend 2\n",
            ),
            (
                "sig Name, Addr {} sig Book { addr: Name -> lone Addr } pred show [b: Book] { #b.addr > 1 } run show for 3 but 1 Book",
                "all 10\n",
                "listed 1\nName = {Name$0, Name$1}\nAddr = {Addr$0, Addr$1}\nBook = {Book$0}\naddr = {Book$0->Name$0->Addr$0, Book$0->Name$1->Addr$1}\nlisted 2\nName = {Name$0, Name$1}\nAddr = {Addr$0}\nBook = {Book$0}\naddr = {Book$0->Name$0->Addr$0, Book$0->Name$1->Addr$0}\nend 2\n",
            ),
        ],
    )
}

#[test]
fn refutes_what_needs_a_search(rt: HostRuntime) -> Result<(), Fail> {
    serves(
        &rt,
        rt.alloc(),
        &[
            (
                "sig P { h: one Q } sig Q {} run { all disj p, q: P | p.h != q.h } for exactly 3 P, exactly 2 Q",
                "budget 0\nnext\nbudget 20000\nnext\n",
                "budget 0\nrefused spent 0\nbudget 20000\nend 0\n",
            ),
            (
                "sig P { h: lone Q } sig Q {} run { (all disj p, q: P | no (p.h & q.h)) && (some h => all p: P | some p.h) } for exactly 4 P, exactly 3 Q",
                "next\naugment h P$0->Q$0\n",
                "scenario 1\nP = {P$0, P$1, P$2, P$3}\nQ = {Q$0, Q$1, Q$2}\nh = {}\nrefused no_instance\n",
            ),
        ],
    )
}

#[test]
fn takes_the_sizes_of_scopes(rt: HostRuntime) -> Result<(), Fail> {
    serves(
        &rt,
        rt.alloc(),
        &[
            (
                "abstract sig Color {} one sig Red, Green, Blue, Black extends Color {} run {}",
                "next\n",
                "scenario 1\nColor = {Color$0, Color$1, Color$2, Color$3}\nRed = {Color$0}\nGreen = {Color$1}\nBlue = {Color$2}\nBlack = {Color$3}\n",
            ),
            (
                "sig A { f: A -> A } run {} for 15",
                "next\n",
                "scenario 1\nA = {}\nf = {}\n",
            ),
        ],
    )
}

#[test]
fn keeps_what_a_floor_has(rt: HostRuntime) -> Result<(), Fail> {
    serves(
        &rt,
        rt.alloc(),
        &[
            (
                "sig A, B {} run { some A implies some B } for 2",
                "next\naugment A A$0\nall 10\n",
                "scenario 1\nA = {}\nB = {}\naugmented\nlisted 1\nA = {A$0}\nB = {B$0}\nend 1\n",
            ),
            (
                "sig A {} run { some A implies #A > 1 } for 3",
                "next\naugment A A$1\nall 10\n",
                "scenario 1\nA = {}\naugmented\nlisted 1\nA = {A$0, A$1}\nlisted 2\nA = {A$1, A$2}\nend 2\n",
            ),
        ],
    )
}

#[test]
fn grows_a_file_system(rt: HostRuntime) -> Result<(), Fail> {
    serves(
        &rt,
        rt.alloc(),
        &[(
            "sig FSObject { parent: lone Dir } sig Dir extends FSObject { contents: set FSObject } sig File extends FSObject {} one sig Root extends Dir {} fact { File + Dir = FSObject } fact { all d: Dir, o: d.contents | o.parent = d } fact { no Root.parent FSObject in Root.*contents } run {} for 3",
            "next\naugment File FSObject$1\nall 10\n",
            "scenario 1\nFSObject = {FSObject$0}\nDir = {FSObject$0}\nFile = {}\nRoot = {FSObject$0}\nparent = {}\ncontents = {}\naugmented\nlisted 1\nFSObject = {FSObject$0, FSObject$1, FSObject$2}\nDir = {FSObject$0, FSObject$2}\nFile = {FSObject$1}\nRoot = {FSObject$0}\nparent = {FSObject$1->FSObject$2, FSObject$2->FSObject$0}\ncontents = {FSObject$0->FSObject$2, FSObject$2->FSObject$1}\nlisted 2\nFSObject = {FSObject$0, FSObject$1}\nDir = {FSObject$0}\nFile = {FSObject$1}\nRoot = {FSObject$0}\nparent = {FSObject$1->FSObject$0}\ncontents = {FSObject$0->FSObject$1}\nend 2\n",
        )],
    )
}

#[test]
fn refuses_what_isn_t_there(rt: HostRuntime) -> Result<(), Fail> {
    serves(
        &rt,
        rt.alloc(),
        &[(
            "sig A { f: set A } run { some A } for 2",
            "next\naugment f A$0\naugment f A$0->A$5\naugment A A$0->A$1\naugment B A$0\naugment f A$0->A$1\nnext\nproof\nbudget 0\nnext\nbudget 20000\nnext\n",
            "scenario 1\nA = {A$0}\nf = {}\nrefused unknown_tuple\nrefused unknown_tuple\nrefused unknown_tuple\nrefused unknown_tuple\naugmented\nscenario 1\nA = {A$0, A$1}\nf = {A$0->A$1}\nrefused no_end\nbudget 0\nrefused spent 0\nbudget 20000\nend 1\n",
        )],
    )
}

fn push_atom(script: &mut String, name: &str, place: u32) -> Result<(), Fail> {
    Ok(write!(script, "augment {name} {name}${place}\nnext\n")?)
}

// A session that gives its scenario one atom after the other, 64 in all, and then asks for one floor more.
fn rising(alloc: Global) -> Result<String, Fail> {
    let front = "== model m\nsig A, B {} sig P in A {} run {} for 32\n== session a m 1\nnext\n";
    let mut script = String::from_str(alloc, front)?;
    for name in ["A", "B"] {
        for place in 0..32 {
            push_atom(&mut script, name, place)?;
        }
    }
    script.push_str("augment P A$0\nback\nnext\n")?;
    Ok(script)
}

// How many lines of a text are this one.
fn lines_that_are(text: &str, wanted: &str) -> u32 {
    let mut count = 0u32;
    for line in text.lines() {
        if line == wanted {
            count = count.saturating_add(1);
        }
    }
    count
}

#[test]
fn has_64_floors(rt: HostRuntime) -> Result<(), Fail> {
    let script = rising(rt.alloc())?;
    let (_, text) = run(&rt, rt.alloc(), &script)?;
    assert_eq!(rt; lines_that_are(&text, "augmented"), 64);
    assert!(rt; text.as_str().ends_with("refused deep\nback\nend 1\n"));
    Ok(())
}

#[test]
fn lists_20_000_scenarios(rt: HostRuntime) -> Result<(), Fail> {
    let front = "== model m\nsig A { f: set A } run { some A } for 4\n== session a m 1\n";
    let script = grown(rt.alloc(), front, ("all 1000\n", false, ""), 20)?;
    let (status, text) = run(&rt, rt.alloc(), &script)?;
    assert_eq!(rt; (status, lines_that_are(&text, "end 1")), (0, 20));
    Ok(())
}
