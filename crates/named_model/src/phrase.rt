// The tree of a part of a model, with every name tied to its declaration.
use alloy_lex::Place;
use alloy_syntax::tree::{
    Comparing, Constant, MultiplicityWord, Number, Operator, Prefix, Quantifier,
};

/// What a name stands for that is no predicate and no function. Signatures and fields are numbered from 0 in order of
/// declaration.
#[derive(Clone, Copy)]
pub enum Referent {
    Signature(usize),
    Field(usize),
    /// Several fields of one name, the first of which has this number.
    Shared(usize),
    /// A variable, a name of a `let`, or a parameter, counted outward from 0.
    Local(usize),
}

/// An operator of a chain, and the operand behind it.
#[cycle(phrase)]
pub struct Link {
    pub operator: Operator,
    pub place: Place,
    pub operand: Phrase,
}

// By hand, so that a caller's proof has one step wherever one is dropped.
impl Drop for Link {
    #[cycle(phrase)]
    fn drop(self) {
        let Link {
            operator: _,
            place: _,
            operand: _,
        } = self;
    }
}

/// What stands behind an expression and belongs to no call: `.` and an expression, or brackets with what is in them.
#[cycle(phrase)]
pub enum Step {
    Join(Place, Phrase),
    Brackets(Place, Vec<Phrase>),
}

// By hand, so that a caller's proof has one step wherever one is dropped.
impl Drop for Step {
    #[cycle(phrase)]
    fn drop(self) {
        match self {
            Step::Join(_, _) => {}
            Step::Brackets(_, _) => {}
        }
    }
}

/// So many variables with their domain, and whether they are disjoint.
#[cycle(phrase)]
pub struct Domain {
    pub disjoint: bool,
    pub count: usize,
    pub mark: Option<MultiplicityWord>,
    pub domain: Phrase,
}

// By hand, so that a caller's proof has one step wherever one is dropped.
impl Drop for Domain {
    #[cycle(phrase)]
    fn drop(self) {
        let Domain {
            disjoint: _,
            count: _,
            mark: _,
            domain: _,
        } = self;
    }
}

/// An expression, a formula or a number.
#[cycle(phrase)]
pub enum Phrase {
    Refers(Place, Referent),
    /// A call of the predicate or function of that number, with its arguments.
    Called(Place, usize, Vec<Phrase>),
    Numbered(Number),
    Constant(Constant, Place),
    /// In round brackets, with the place of the opening one.
    Bracketed(Place, Box<Phrase>),
    /// In braces, with the place of the opening one.
    Block(Place, Vec<Phrase>),
    Prefixed(Prefix, Place, Box<Phrase>),
    /// A chain: the first operand, and the others with their operators.
    Chain(Box<Phrase>, Vec<Link>),
    /// An expression, and the joins and brackets behind it.
    Path(Box<Phrase>, Vec<Step>),
    Compared(Box<Phrase>, Comparing, Box<Phrase>),
    Implies(Box<Phrase>, Place, Box<Phrase>),
    /// `=>` with a part behind `else`.
    ImpliesElse(Box<Phrase>, Place, Box<Phrase>, Box<Phrase>),
    Quantified(Quantifier, Place, Vec<Domain>, Box<Phrase>),
    /// The values of the names, each of which sees those before it, and the part that sees all.
    Let(Place, Vec<Phrase>, Box<Phrase>),
}

// By hand, so that a caller's proof has one step wherever one is dropped.
impl Drop for Phrase {
    #[cycle(phrase)]
    fn drop(self) {
        match self {
            Phrase::Refers(_, _) => {}
            Phrase::Called(_, _, _) => {}
            Phrase::Numbered(_) => {}
            Phrase::Constant(_, _) => {}
            Phrase::Bracketed(_, _) => {}
            Phrase::Block(_, _) => {}
            Phrase::Prefixed(_, _, _) => {}
            Phrase::Chain(_, _) => {}
            Phrase::Path(_, _) => {}
            Phrase::Compared(_, _, _) => {}
            Phrase::Implies(_, _, _) => {}
            Phrase::ImpliesElse(_, _, _, _) => {}
            Phrase::Quantified(_, _, _, _) => {}
            Phrase::Let(_, _, _) => {}
        }
    }
}
