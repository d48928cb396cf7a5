// What measures print.
use std::fmt;

/// How large the clause form of a problem's circuit is.
#[derive(Clone, Copy)]
pub struct ClauseForm {
    pub nodes: u32,
    pub variables: u32,
    pub clauses: u32,
}

/// How large the translation of a problem is, and of how many swaps with how many clauses together.
#[derive(Clone, Copy)]
pub struct TranslationSize {
    pub terms: u32,
    pub variables: u32,
    pub clauses: u32,
    pub swaps: u32,
    pub swap_clauses: u32,
}

/// What a measure made or found.
#[derive(Clone, Copy)]
pub enum Found {
    /// A number.
    Number(u32),
    /// The cells of a problem, and the terms of its formula.
    Terms { cells: u32, terms: u32 },
    /// The nodes of its circuit.
    Circuit { terms: u32, nodes: u32 },
    /// The variables and clauses of its circuit's clause form.
    Clauses(ClauseForm),
    /// The variables and clauses of its translation, its swaps and their clauses.
    Translation(TranslationSize),
}

impl fmt::Display for ClauseForm {
    fn fmt<W: fmt::Write>(&self, f: &mut fmt::Formatter<W>) -> fmt::Result {
        write!(
            f,
            "{} nodes, {} variables, {} clauses",
            self.nodes, self.variables, self.clauses
        )
    }
}

impl fmt::Display for TranslationSize {
    fn fmt<W: fmt::Write>(&self, f: &mut fmt::Formatter<W>) -> fmt::Result {
        write!(
            f,
            "{} terms, {} variables, {} clauses, {} swaps of {} clauses",
            self.terms, self.variables, self.clauses, self.swaps, self.swap_clauses
        )
    }
}

impl fmt::Display for Found {
    fn fmt<W: fmt::Write>(&self, f: &mut fmt::Formatter<W>) -> fmt::Result {
        match self {
            Found::Number(number) => write!(f, "{number}"),
            Found::Terms { cells, terms } => write!(f, "{cells} cells, {terms} terms"),
            Found::Circuit { terms, nodes } => write!(f, "{terms} terms, {nodes} nodes"),
            Found::Clauses(form) => write!(f, "{form}"),
            Found::Translation(size) => write!(f, "{size}"),
        }
    }
}
