// What is printed.
use alloy_lex::LexFault;
use alloy_parse::ParseFault;
use lowering_rules::LowerFault;
use model_types::TypeFault;
use named_model::NameFault;
use std::fmt;

/// How many of each a model declares.
#[derive(Clone, Copy)]
pub struct Counts {
    pub signatures: usize,
    pub fields: usize,
    pub callees: usize,
    pub facts: usize,
    pub commands: usize,
}

/// What a text was read as or made into, or its first fault.
#[derive(Drop)]
pub enum Found {
    /// The text, which was not read.
    Text,
    /// A tree of so many paragraphs.
    Tree(usize),
    /// A model whose names are tied to their declarations.
    Names(Counts),
    /// A model whose sorts and arities have no fault.
    Types(Counts),
    /// The relations and cells of the problem of the first command.
    Problem { relations: usize, cells: u32 },
    /// The terms of that problem.
    Terms(u32),
    NoTokens(LexFault),
    NoTree(ParseFault),
    BadName(NameFault),
    BadType(TypeFault),
    NoProblem(LowerFault),
}

impl fmt::Display for Counts {
    fn fmt<W: fmt::Write>(&self, f: &mut fmt::Formatter<W>) -> fmt::Result {
        write!(
            f,
            "{} signatures, {} fields, {} predicates and functions, {} facts, {} commands",
            self.signatures, self.fields, self.callees, self.facts, self.commands
        )
    }
}

impl fmt::Display for Found {
    fn fmt<W: fmt::Write>(&self, f: &mut fmt::Formatter<W>) -> fmt::Result {
        match self {
            Found::Text => write!(f, "not read"),
            Found::Tree(paragraphs) => write!(f, "{paragraphs} paragraphs"),
            Found::Names(counts) => write!(f, "names of {counts}"),
            Found::Types(counts) => write!(f, "types of {counts}"),
            Found::Problem { relations, cells } => {
                write!(f, "{relations} relations, {cells} cells")
            }
            Found::Terms(terms) => write!(f, "{terms} terms"),
            Found::NoTokens(fault) => write!(f, "{fault}"),
            Found::NoTree(fault) => write!(f, "{fault}"),
            Found::BadName(fault) => write!(f, "{fault}"),
            Found::BadType(fault) => write!(f, "{fault}"),
            Found::NoProblem(fault) => write!(f, "{fault}"),
        }
    }
}
