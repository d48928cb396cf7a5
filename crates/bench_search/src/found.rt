// What is printed.
use std::fmt;

/// What a search comes to.
#[derive(Clone, Copy, Debug, PartialEq, Eq)]
pub enum End {
    /// A valuation was found.
    Found,
    /// There is none.
    Refuted,
    /// The budget was spent.
    Spent,
}

/// What a search comes to, and how large its log is.
#[derive(Clone, Copy)]
pub struct Searched {
    pub end: End,
    pub steps: usize,
    pub literals: u64,
    pub hints: u64,
}

/// What a search does: the variables that it decides, those that are forced, and the conflicts that it learns from.
#[derive(Clone, Copy)]
pub struct Effort {
    pub decided: u64,
    pub forced: u64,
    pub conflicts: u64,
}

/// How many calls come to what, and the steps of their logs together.
#[derive(Clone, Copy)]
pub struct Called {
    pub found: u32,
    pub refuted: u32,
    pub spent: u32,
    pub steps: u64,
}

/// From how many cells a descent goes down to how many, in how many searches with how many steps.
#[derive(Clone, Copy)]
pub struct Descended {
    pub from: usize,
    pub to: usize,
    pub searches: usize,
    pub steps: u64,
}

/// How many cells are offered at a scenario of so many, of how many outside it, in how many searches with how many steps.
#[derive(Clone, Copy)]
pub struct Offered {
    pub at: usize,
    pub outside: usize,
    pub offered: usize,
    pub searches: usize,
    pub steps: u64,
}

/// What was found.
#[derive(Drop)]
pub enum Found {
    /// Clauses as a text.
    Text(String),
    /// The variables and the clauses that were made.
    Clauses {
        variables: u32,
        clauses: u32,
    },
    Searched(Searched),
    Effort(Effort),
    Called(Called),
    /// The cells of a problem, and the variables and clauses of its translation.
    Translated {
        cells: u32,
        variables: u32,
        clauses: u32,
    },
    Descended(Descended),
    Offered(Offered),
}

impl fmt::Display for End {
    fn fmt<W: fmt::Write>(&self, f: &mut fmt::Formatter<W>) -> fmt::Result {
        match self {
            End::Found => write!(f, "found"),
            End::Refuted => write!(f, "refuted"),
            End::Spent => write!(f, "spent"),
        }
    }
}

impl fmt::Display for Searched {
    fn fmt<W: fmt::Write>(&self, f: &mut fmt::Formatter<W>) -> fmt::Result {
        write!(
            f,
            "{}, {} steps of {} literals and {} hints",
            self.end, self.steps, self.literals, self.hints
        )
    }
}

impl fmt::Display for Effort {
    fn fmt<W: fmt::Write>(&self, f: &mut fmt::Formatter<W>) -> fmt::Result {
        write!(
            f,
            "{} decided, {} forced, {} conflicts",
            self.decided, self.forced, self.conflicts
        )
    }
}

impl fmt::Display for Called {
    fn fmt<W: fmt::Write>(&self, f: &mut fmt::Formatter<W>) -> fmt::Result {
        write!(
            f,
            "{} found, {} refuted, {} spent, {} steps",
            self.found, self.refuted, self.spent, self.steps
        )
    }
}

impl fmt::Display for Descended {
    fn fmt<W: fmt::Write>(&self, f: &mut fmt::Formatter<W>) -> fmt::Result {
        write!(
            f,
            "{} cells, of which {} are left after {} searches with {} steps",
            self.from, self.to, self.searches, self.steps
        )
    }
}

impl fmt::Display for Offered {
    fn fmt<W: fmt::Write>(&self, f: &mut fmt::Formatter<W>) -> fmt::Result {
        write!(
            f,
            "{} cells, and of {} others {} are offered after {} searches with {} steps",
            self.at, self.outside, self.offered, self.searches, self.steps
        )
    }
}

impl fmt::Display for Found {
    fn fmt<W: fmt::Write>(&self, f: &mut fmt::Formatter<W>) -> fmt::Result {
        match self {
            Found::Text(text) => write!(f, "{text}"),
            Found::Clauses { variables, clauses } => {
                write!(f, "{variables} variables, {clauses} clauses")
            }
            Found::Searched(searched) => write!(f, "{searched}"),
            Found::Effort(effort) => write!(f, "{effort}"),
            Found::Called(called) => write!(f, "{called}"),
            Found::Translated {
                cells,
                variables,
                clauses,
            } => write!(f, "{cells} cells, {variables} variables, {clauses} clauses"),
            Found::Descended(descended) => write!(f, "{descended}"),
            Found::Offered(offered) => write!(f, "{offered}"),
        }
    }
}
