// What sessions are asked for, chosen at random.
use rand_core::Rng;
use rand_pcg::Pcg32;
use rel_formula::Problem;
use sample_problems::at;
use tuple_core::Tuple;

// A relation, by its number, and one atom or two, by their places.
#[derive(Clone, Copy, Debug)]
pub struct Asked {
    pub relation: u8,
    pub first: u16,
    pub second: Option<u16>,
}

impl Asked {
    // The tuple of the atoms.
    pub fn tuple(self) -> Tuple {
        match self.second {
            None => Tuple::single(at(self.first)),
            Some(second) => Tuple::of(&[at(self.first), at(second)]),
        }
    }
}

#[derive(Clone, Copy, Debug)]
pub enum Ask {
    Next,
    Offers,
    Augment(Asked),
    Back,
    Budget(u32),
    Proof,
}

// What enough is to answer anything that is asked about the problems of these tests.
pub const ENOUGH: u32 = 10_000;

// A step: in 16 of them some 6 for the next scenario, 4 with a tuple, and each of the others.
pub fn any_ask(rng: &mut Pcg32, problem: &Problem) -> Ask {
    match rng.next_u32() % 16 {
        0..=5 => Ask::Next,
        6 | 7 => Ask::Offers,
        8..=11 => Ask::Augment(any_tuple(rng, problem)),
        12 => Ask::Back,
        13 => Ask::Budget(any_budget(rng)),
        _ => Ask::Proof,
    }
}

// A cell of the problem mostly, and else any relation and atoms, whether they are there or not.
fn any_tuple(rng: &mut Pcg32, problem: &Problem) -> Asked {
    let cells = problem.all_cells();
    if cells.is_empty() || rng.next_u32() % 4 == 0 {
        return any_names(rng);
    }
    let cell = &cells[rng.next_u32() as usize % cells.len()];
    let second = match cell.tuple.atoms().len() {
        1 => None,
        _ => Some(cell.tuple.last().place),
    };
    Asked {
        relation: cell.relation,
        first: cell.tuple.first().place,
        second,
    }
}

fn any_names(rng: &mut Pcg32) -> Asked {
    let relation = (rng.next_u32() % 4) as u8;
    let first = (rng.next_u32() % 4) as u16;
    let second = match rng.next_u32() % 8 {
        0..=3 => None,
        place => Some((place % 4) as u16),
    };
    Asked {
        relation,
        first,
        second,
    }
}

// Hardly anything mostly, and else enough.
fn any_budget(rng: &mut Pcg32) -> u32 {
    match rng.next_u32() % 8 {
        0 => ENOUGH,
        few => few / 2,
    }
}
