// The tree of a model, as the grammar has it. Each part keeps the places that a later fault may name.
use alloy_lex::{Place, Text};

/// A name as it was written. In a node it may be a path, with its slash; what is declared has none.
#[derive(Drop)]
pub struct Name {
    pub text: Text,
    pub place: Place,
}

/// A number as it was written: its value, or 1,001 where that is greater.
#[derive(Clone, Copy)]
pub struct Number {
    pub value: u16,
    pub place: Place,
}

/// A word that says how many: of a signature, a field, an arrow's side, or a variable.
#[derive(Clone, Copy)]
pub enum Multiplicity {
    Set,
    One,
    Lone,
    Some,
}

/// A multiplicity word where it was written.
#[derive(Clone, Copy)]
pub struct MultiplicityWord {
    pub multiplicity: Multiplicity,
    pub place: Place,
}

/// The word of a quantifier.
#[derive(Clone, Copy)]
pub enum Quantifier {
    All,
    Some,
    No,
    Lone,
    One,
}

/// The relations that have words of their own.
#[derive(Clone, Copy)]
pub enum Constant {
    None,
    Univ,
    Iden,
}

/// What stands in front of its operand: `!`, the words that count, `#`, `~`, `^` and `*`.
#[derive(Clone, Copy)]
pub enum Prefix {
    Not,
    No,
    Some,
    Lone,
    One,
    Size,
    Transpose,
    Closure,
    ReflexiveClosure,
}

/// What stands between the operands of a chain, which groups from the left.
#[derive(Clone, Copy)]
pub enum Operator {
    Or,
    Iff,
    And,
    Union,
    Minus,
    Override,
    Meet,
    Product,
    Domain,
    Range,
}

/// What is compared.
#[derive(Clone, Copy)]
pub enum Comparison {
    In,
    Equal,
    Less,
    Greater,
    AtMost,
    AtLeast,
}

/// A comparison where it was written: `!=`, and `!` or `not` before `in` and `=`, are negated. Its place is that of the
/// `!` or `not`, if there is one.
#[derive(Clone, Copy)]
pub struct Comparing {
    pub comparison: Comparison,
    pub negated: bool,
    pub place: Place,
}

/// An operator of a chain, and the operand behind it.
#[cycle(tree)]
pub struct Link {
    pub operator: Operator,
    pub place: Place,
    pub operand: Node,
}

// By hand, so that a caller's proof has one step wherever one is dropped.
impl Drop for Link {
    #[cycle(tree)]
    fn drop(self) {
        let Link {
            operator: _,
            place: _,
            operand: _,
        } = self;
    }
}

/// What stands behind an expression: `.` and an expression, or brackets with what is in them.
#[cycle(tree)]
pub enum Step {
    Join(Place, Node),
    Brackets(Place, Vec<Node>),
}

// By hand, so that a caller's proof has one step wherever one is dropped.
impl Drop for Step {
    #[cycle(tree)]
    fn drop(self) {
        match self {
            Step::Join(_, _) => {}
            Step::Brackets(_, _) => {}
        }
    }
}

/// Variables with their domain, and whether they are disjoint.
#[cycle(tree)]
pub struct Declaration {
    pub disjoint: bool,
    pub names: Vec<Name>,
    pub mark: Option<MultiplicityWord>,
    pub domain: Node,
}

// By hand, so that a caller's proof has one step wherever one is dropped.
impl Drop for Declaration {
    #[cycle(tree)]
    fn drop(self) {
        let Declaration {
            disjoint: _,
            names: _,
            mark: _,
            domain: _,
        } = self;
    }
}

/// A name that `let` gives to an expression.
#[cycle(tree)]
pub struct Binding {
    pub name: Name,
    pub value: Node,
}

// By hand, so that a caller's proof has one step wherever one is dropped.
impl Drop for Binding {
    #[cycle(tree)]
    fn drop(self) {
        let Binding { name: _, value: _ } = self;
    }
}

/// An expression, a formula or a number.
#[cycle(tree)]
pub enum Node {
    Named(Name),
    Numbered(Number),
    Constant(Constant, Place),
    /// In round brackets, with the place of the opening one.
    Bracketed(Place, Box<Node>),
    /// In braces, with the place of the opening one.
    Block(Place, Vec<Node>),
    Prefixed(Prefix, Place, Box<Node>),
    /// A chain: the first operand, and the others with their operators.
    Chain(Box<Node>, Vec<Link>),
    /// An expression, and the joins and brackets behind it.
    Path(Box<Node>, Vec<Step>),
    Compared(Box<Node>, Comparing, Box<Node>),
    Implies(Box<Node>, Place, Box<Node>),
    /// `=>` with a part behind `else`.
    ImpliesElse(Box<Node>, Place, Box<Node>, Box<Node>),
    Quantified(Quantifier, Place, Vec<Declaration>, Box<Node>),
    Let(Place, Vec<Binding>, Box<Node>),
}

// By hand, so that a caller's proof has one step wherever one is dropped.
impl Drop for Node {
    #[cycle(tree)]
    fn drop(self) {
        match self {
            Node::Named(_) => {}
            Node::Numbered(_) => {}
            Node::Constant(_, _) => {}
            Node::Bracketed(_, _) => {}
            Node::Block(_, _) => {}
            Node::Prefixed(_, _, _) => {}
            Node::Chain(_, _) => {}
            Node::Path(_, _) => {}
            Node::Compared(_, _, _) => {}
            Node::Implies(_, _, _) => {}
            Node::ImpliesElse(_, _, _, _) => {}
            Node::Quantified(_, _, _, _) => {}
            Node::Let(_, _, _) => {}
        }
    }
}

/// An arrow of a field's bound: the multiplicity words beside it, and its right side.
#[cycle(bound)]
pub struct BoundArrow {
    pub left: Option<MultiplicityWord>,
    pub place: Place,
    pub right: Option<MultiplicityWord>,
    pub side: Bound,
}

// By hand, so that a caller's proof has one step wherever one is dropped.
impl Drop for BoundArrow {
    #[cycle(bound)]
    fn drop(self) {
        let BoundArrow {
            left: _,
            place: _,
            right: _,
            side: _,
        } = self;
    }
}

/// A field's bound.
#[cycle(bound)]
pub enum Bound {
    Named(Name),
    /// In round brackets, with the place of the opening one.
    Bracketed(Place, Box<Bound>),
    /// The first operand, and the others with the places of the `+` before them.
    Union(Box<Bound>, Vec<(Place, Bound)>),
    /// The first side, and the others with their arrows.
    Arrows(Box<Bound>, Vec<BoundArrow>),
}

// By hand, so that a caller's proof has one step wherever one is dropped.
impl Drop for Bound {
    #[cycle(bound)]
    fn drop(self) {
        match self {
            Bound::Named(_) => {}
            Bound::Bracketed(_, _) => {}
            Bound::Union(_, _) => {}
            Bound::Arrows(_, _) => {}
        }
    }
}

/// Fields with their bound.
#[derive(Drop)]
pub struct Field {
    pub names: Vec<Name>,
    pub mark: Option<MultiplicityWord>,
    pub bound: Bound,
}

/// How a signature stands under its parent.
#[derive(Clone, Copy)]
pub enum Manner {
    Extends,
    In,
}

/// A signature's parent.
#[derive(Drop)]
pub struct Parent {
    pub manner: Manner,
    pub name: Name,
}

/// Signatures that one paragraph declares.
#[derive(Drop)]
pub struct Signatures {
    pub is_abstract: bool,
    pub mark: Option<MultiplicityWord>,
    pub names: Vec<Name>,
    pub parent: Option<Parent>,
    pub fields: Vec<Field>,
}

/// Formulas in braces, with the place of the opening one.
#[derive(Drop)]
pub struct Block {
    pub place: Place,
    pub formulas: Vec<Node>,
}

/// What a command runs or checks: a block, or what a name stands for.
#[derive(Drop)]
pub enum Target {
    Named(Name),
    /// A block, and its label if it has one. The label names nothing.
    Block(Option<Name>, Block),
}

/// The size that a scope gives to a signature.
#[derive(Drop)]
pub struct Entry {
    pub exactly: bool,
    pub number: Number,
    pub name: Name,
}

/// A command's scope: the default, if it is given, and the sizes of some signatures.
#[derive(Drop)]
pub struct Scope {
    pub default: Option<Number>,
    pub entries: Vec<Entry>,
}

/// Whether a command asks for scenarios, or for counterexamples.
#[derive(Clone, Copy)]
pub enum CommandKind {
    Run,
    Check,
}

/// A command, with the place of its first word.
#[derive(Drop)]
pub struct Command {
    pub kind: CommandKind,
    pub place: Place,
    pub target: Target,
    pub scope: Option<Scope>,
    /// The number behind `expect`, which has no effect.
    pub expected: Option<Number>,
}

/// A function: its parameters, its range with the word before it, and the expression that it stands for.
#[derive(Drop)]
pub struct Function {
    pub name: Name,
    pub parameters: Vec<Declaration>,
    pub mark: Option<MultiplicityWord>,
    pub range: Node,
    pub body: Node,
}

/// A paragraph of a model.
#[derive(Drop)]
pub enum Paragraph {
    Signatures(Signatures),
    /// A fact, and its name if it has one. The name names nothing.
    Fact(Option<Name>, Block),
    Predicate(Name, Vec<Declaration>, Block),
    Function(Function),
    Assertion(Name, Block),
    Command(Command),
}

/// An ordering of a signature: `open util/ordering[S] as o`.
#[derive(Drop)]
pub struct Open {
    pub signature: Name,
    /// The name behind `as`, which stands before the slash of its paths.
    pub alias: Name,
}

/// The tree of a model.
#[derive(Drop)]
pub struct Model {
    /// The name behind `module`, which has no effect.
    pub heading: Option<Name>,
    pub opens: Vec<Open>,
    pub paragraphs: Vec<Paragraph>,
}
