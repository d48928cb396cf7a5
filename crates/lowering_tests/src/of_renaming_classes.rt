// That the classes of scenarios are those of the field: how many graphs of some kinds there are up to renaming is known.
ghost use Rattle.std.specs.Prelude.{◌≤◌, IfOk, All};
ghost use Rattle.rel_formula.specs.Instance.{AreCells};
ghost use Rattle.rel_formula.specs.Renaming.{IsSymmetric};

use lowering_rules::laws::problems_are_symmetric;
use model_texts::typed_texts::{ModelText, read_model};
use rel_formula::{Problem, Scenario, holds};
use rel_lower::lower;
use renaming_classes::{classes, least, renamings};
use sample_problems::chosen;
use std::alloc::Global;
use std::process::Abort;
use std::test::Fail;

// The problem of a model's first command.
fn problem(alloc: Global, text: &str) -> Result<Problem, Fail>
    ensures { IfOk result IsSymmetric }
{
    problems_are_symmetric();
    if text.len() > 1_048_576 {
        return Err("too long")?;
    }
    let ModelText::Typed(model) = read_model(alloc, text)? else {
        return Err("no model")?;
    };
    match lower(alloc, &model, 1) {
        Ok(problem) => Ok(problem),
        Err(_) => Err("no problem")?,
    }
}

// The instances of the problem that have these cells each. It fails where one is no instance.
fn instances(alloc: Global, problem: &Problem, cells: &[Vec<u32>]) -> Result<Vec<Scenario>, Fail>
    ensures { IfOk result (λ all. All (AreCells problem.now) all.items) }
{
    let mut all = Vec::new(alloc);
    for numbers in cells {
        let scenario = chosen(alloc, problem, numbers)?;
        if !holds(alloc, problem, &scenario)? {
            return Err("no instance")?;
        }
        all.push(scenario)?;
    }
    Ok(all)
}

// How many classes these instances of a model's first command have.
fn count(alloc: Global, text: &str, cells: &[Vec<u32>]) -> Result<usize, Fail> {
    let problem = problem(alloc, text)?;
    let all = instances(alloc, &problem, cells)?;
    let found = classes(alloc, &problem, &all)?;
    Ok(found.len())
}

// The digits of a number to a base, the last one first.
fn digits(alloc: Global, number: u32, base: u32, count: u32) -> Result<Vec<u32>, Fail>
    requires { 1 ≤ base }
{
    let mut digits = Vec::new(alloc);
    let mut rest = number;
    for _ in 0..count {
        digits.push(rest % base)?;
        rest /= base;
    }
    Ok(digits)
}

// The cells of an arrow between each two of five atoms: those between neighbours go on in one row, and of each other pair the
// number says which of the two arrows is there.
fn tournament(alloc: Global, number: u32) -> Result<Vec<u32>, Fail> {
    let ways = digits(alloc, number, 2, 6)?;
    let mut cells = vec![in alloc; 1, 7, 13, 19]?;
    let pairs = [(2, 10), (3, 15), (4, 20), (8, 16), (9, 21), (14, 22)];
    for (way, (there, back)) in ways.iter().zip(&pairs) {
        cells.push(if *way == 0 { *there } else { *back })?;
    }
    Ok(cells)
}

// Of the tournaments on five players 12 are different. Each has a row of all players in which each beat the next.
#[test]
fn tournaments(rt: HostRuntime) -> Result<(), Fail> {
    let alloc = rt.alloc();
    let mut all = Vec::new(alloc);
    for number in 0..64u32 {
        all.push(tournament(alloc, number)?)?;
    }
    let text =
        "sig A { f: set A } run { all disj a, b: A | a->b in f or b->a in f } for exactly 5 A";
    assert_eq!(rt; count(alloc, text, &all)?, 12);
    Ok(())
}

// Of the functions from five elements to the same five 47 are different. Up to renaming each takes the first element to one of
// the first two, the second to one of the first three, and so on.
#[test]
fn functional_graphs(rt: HostRuntime) -> Result<(), Fail> {
    let alloc = rt.alloc();
    let mut all = Vec::new(alloc);
    for number in 0..600u32 {
        let first = number % 2;
        let second = 5 + number / 2 % 3;
        let third = 10 + number / 6 % 4;
        let fourth = 15 + number / 24 % 5;
        let fifth = 20 + number / 120;
        all.push(vec![in alloc; first, second, third, fourth, fifth]?)?;
    }
    let text = "sig A { f: set A } run { all a: A | some a.f some A } for exactly 5 A";
    assert_eq!(rt; count(alloc, text, &all)?, 47);
    Ok(())
}

// Three arrows among five atoms, one of them from the first atom to itself or to the second: with the atoms that they touch
// where these need not be there.
fn three_arrows(alloc: Global, exact: bool) -> Result<Vec<Vec<u32>>, Fail> {
    let mut all = Vec::new(alloc);
    for first in 0..2u32 {
        for second in 0..25u32 {
            for third in second + 1..25 {
                if first != second && first != third {
                    all.push(cells_of(alloc, &[first, second, third], exact)?)?;
                }
            }
        }
    }
    Ok(all)
}

// The cells of these arrows among five atoms, and of the atoms that they touch where these need not be there.
fn cells_of(alloc: Global, arrows: &[u32], exact: bool) -> Result<Vec<u32>, Fail> {
    let mut cells = Vec::new(alloc);
    for arrow in arrows {
        if exact {
            cells.push(*arrow)?;
        } else {
            cells.push(*arrow / 5)?;
            cells.push(*arrow % 5)?;
            cells.push(5 + *arrow % 25)?;
        }
    }
    Ok(cells)
}

// Of the graphs of three arrows among five atoms 36 are different, whether an atom without an arrow must be there or not.
#[test]
fn graphs_of_three_arrows(rt: HostRuntime) -> Result<(), Fail> {
    let alloc = rt.alloc();
    let exact = three_arrows(alloc, true)?;
    let any = three_arrows(alloc, false)?;
    assert_eq!(rt;
        count(
            alloc,
            "sig A { f: set A } run { #f > 2 } for exactly 5 A",
            &exact
        )?,
        36
    );
    assert_eq!(rt;
        count(alloc, "sig A { f: set A } run { #f > 2 } for 5", &any)?,
        36
    );
    Ok(())
}

// The orders of four atoms as chains of arrows are all renamings of each other.
#[test]
fn chains(rt: HostRuntime) -> Result<(), Fail> {
    let alloc = rt.alloc();
    let mut all = Vec::new(alloc);
    for number in 0..256u32 {
        let places = digits(alloc, number, 4, 4)?;
        let mut cells = Vec::new(alloc);
        for pair in places.windows(2) {
            if let [from, to] = pair {
                cells.push(4 * (*from % 4) + *to % 4)?;
            }
        }
        if are_distinct(&places) {
            all.push(cells)?;
        }
    }
    let text =
        "sig A { f: set A } run { no iden & ^f all disj a, b: A | a->b in ^f or b->a in ^f } for exactly 4 A";
    assert_eq!(rt; all.len(), 24);
    assert_eq!(rt; count(alloc, text, &all)?, 1);
    Ok(())
}

fn are_distinct(numbers: &[u32]) -> bool {
    for (place, number) in numbers.iter().enumerate() {
        if numbers[..place].contains(number) {
            return false;
        }
    }
    true
}

// Three names in an address book: with one, two or three addresses.
#[test]
fn address_books(rt: HostRuntime) -> Result<(), Fail> {
    let alloc = rt.alloc();
    let mut all = Vec::new(alloc);
    for number in 0..64u32 {
        all.push(book(alloc, &digits(alloc, number, 4, 3)?)?)?;
    }
    let text =
        "sig Name, Addr {} sig Book { addr: Name -> lone Addr } pred show [b: Book] { #b.addr > 2 } run show for 4 but 1 Book";
    assert_eq!(rt; count(alloc, text, &all)?, 3);
    Ok(())
}

// The cells of a book with these addresses for the first names.
fn book(alloc: Global, addresses: &[u32]) -> Result<Vec<u32>, Fail> {
    let mut cells = vec![in alloc; 8]?;
    for (name, address) in addresses.iter().enumerate() {
        let name = (name % 4) as u32;
        let address = *address % 4;
        cells.push(name)?;
        cells.push(4 + address)?;
        cells.push(9 + 4 * name + address)?;
    }
    Ok(cells)
}

// How many renamings the problem of a model's first command has.
fn counted(alloc: Global, text: &str) -> Result<Option<u32>, Fail> {
    let problem = problem(alloc, text)?;
    Ok(renamings(&problem))
}

#[test]
fn numbers_of_renamings(rt: HostRuntime) -> Result<(), Fail> {
    let alloc = rt.alloc();
    assert_eq!(rt; counted(alloc, "sig A {} run {} for 8")?, Some(40_320));
    assert_eq!(rt; counted(alloc, "sig A {} run {} for 9")?, None);
    assert_eq!(rt;
        counted(alloc, "sig A, B {} one sig C {} run {} for 6 but 4 B")?,
        Some(17_280)
    );
    assert_eq!(rt; counted(alloc, "sig A, B {} run {} for 8 but 2 B")?, None);
    assert_eq!(rt; counted(alloc, "one sig A, B {} run {}")?, Some(1));
    Ok(())
}

// The least renaming of two arrows in a row that begin at the last of three atoms begins at the first.
#[test]
fn least_of_two_arrows(rt: HostRuntime) -> Result<(), Fail> {
    let alloc = rt.alloc();
    let problem = problem(alloc, "sig A { f: set A } run {} for exactly 3 A")?;
    let scenario = chosen(alloc, &problem, &[3, 7])?;
    let member = least(alloc, &problem, &scenario)?;
    assert!(rt; member.numbers() == [1, 5].as_slice());
    Ok(())
}
