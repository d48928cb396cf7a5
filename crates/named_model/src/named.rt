// A model with every name tied to its declaration. What is declared is numbered from 0 in order of declaration, each kind
// by itself; predicates and functions are one kind.
ghost use Rattle.std.specs.Prelude.{◌≡◌, ◌-◌, ◌^◌, suc, length, map, min, option_map, MatchOption};
ghost use Rattle.named_model.specs.Numbered.{is_check, name_of_fact};
ghost use Rattle.named_model.specs.View.{command_view};

use crate::phrase::{Domain, Phrase};
use alloy_lex::{Place, Text};
use alloy_syntax::tree::{CommandKind, Manner, MultiplicityWord, Number};

/// A signature, with the number of its parent if it has one.
#[derive(Drop)]
pub struct Signature {
    pub name: Text,
    pub place: Place,
    pub is_abstract: bool,
    pub mark: Option<MultiplicityWord>,
    pub parent: Option<(Manner, usize)>,
}

/// A field of the signature of that number. Its bound is a phrase of signatures, unions, arrows and brackets. The words
/// `left` and `right` are those beside the first arrow.
#[derive(Drop)]
pub struct Field {
    pub name: Text,
    pub place: Place,
    pub owner: usize,
    pub mark: Option<MultiplicityWord>,
    pub left: Option<MultiplicityWord>,
    pub right: Option<MultiplicityWord>,
    pub bound: Phrase,
}

/// What a predicate or a function stands for.
#[derive(Drop)]
pub enum Meaning {
    /// The formulas of a predicate.
    Formulas(Vec<Phrase>),
    /// The range of a function, and its body.
    Value(Phrase, Phrase),
}

/// A predicate or a function.
#[derive(Drop)]
pub struct Callee {
    pub place: Place,
    pub parameters: Vec<Domain>,
    pub meaning: Meaning,
}

/// The formulas of a fact or an assertion.
#[derive(Drop)]
pub struct Formulas {
    pub formulas: Vec<Phrase>,
}

/// What a command runs or checks.
#[derive(Drop)]
pub enum Target {
    /// The predicate of that number.
    Predicate(usize),
    /// The assertion of that number.
    Assertion(usize),
    Block(Vec<Phrase>),
}

/// The size that a scope gives to a name; the number of the signature, if it is one.
#[derive(Drop)]
pub struct Listing {
    pub exactly: bool,
    pub number: Number,
    pub place: Place,
    pub signature: Option<usize>,
}

/// A command's scope: the default, if it is given, and the sizes that it lists.
#[derive(Drop)]
pub struct Scope {
    pub default: Option<Number>,
    pub listings: Vec<Listing>,
}

/// A command: what it runs or checks, and its scope, if it has one.
#[derive(Drop)]
pub struct Command {
    pub kind: CommandKind,
    pub target: Target,
    pub scope: Option<Scope>,
}

/// What a paragraph declares: so many fields from a number on, or the one thing of a number.
#[derive(Clone, Copy)]
pub enum Part {
    Fields(usize, usize),
    Fact(usize),
    Callee(usize),
    Assertion(usize),
    Command(usize),
}

/// A model with every name tied to its declaration, with its paragraphs in the order of the text.
#[derive(Drop)]
pub struct Named {
    pub signatures: Vec<Signature>,
    pub fields: Vec<Field>,
    pub callees: Vec<Callee>,
    pub facts: Vec<Formulas>,
    /// The name of each fact, if it has one.
    pub fact_names: Vec<Option<Text>>,
    pub assertions: Vec<Formulas>,
    pub commands: Vec<Command>,
    pub parts: Vec<Part>,
}

impl Named {
    /// The number of `run` and `check` commands, which are numbered from 1 in the order of the text; at most the largest
    /// number of 32 bits.
    pub fn commands(&self) -> u32
        ensures { result ≡ min (length self.now.commands.items) (2 ^ 32 - 1) }
    {
        u32::try_from(self.commands.len()).unwrap_or(u32::MAX)
    }

    /// Whether the command of that number, from 1 on, is there and is a `check` command.
    pub fn is_check(&self, command: u32) -> bool
        ensures { result ≡ is_check (map command_view self.now.commands.items) command }
    {
        match place_of(command) {
            Some(place) => self.checks_at(place),
            None => false,
        }
    }

    fn checks_at(&self, place: usize) -> bool
        ensures { result ≡ is_check (map command_view self.now.commands.items) (suc place) }
    {
        match self.commands.get(place) {
            Some(command) => matches!(command.kind, CommandKind::Check),
            None => false,
        }
    }

    /// The number of facts, which are numbered from 1 in the order of the text; at most the largest number of 32 bits.
    pub fn facts(&self) -> u32
        ensures { result ≡ min (length self.now.facts.items) (2 ^ 32 - 1) }
    {
        u32::try_from(self.facts.len()).unwrap_or(u32::MAX)
    }

    /// The name of the fact of that number, from 1 on, if it is there and has one.
    pub fn fact_name(&self, number: u32) -> Option<&Text>
        ensures { option_map (λ t. t.now) result ≡ name_of_fact self.now.fact_names.items number }
    {
        match place_of(number) {
            Some(place) => self.fact_names.get(place)?.as_ref(),
            None => None,
        }
    }
}

// The place, from 0 on, of what has this number, from 1 on.
fn place_of(number: u32) -> Option<usize>
    ensures { MatchOption result (number ≡ 0) (λ place. number ≡ suc place) }
{
    if number == 0 {
        return None;
    }
    Some((number - 1) as usize)
}
