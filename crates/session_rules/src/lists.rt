// Lists in replies and transcripts. Contracts see each as the list of its elements.
ghost use Rattle.std.specs.Prelude.{◌≡◌, IfOk};

use crate::answers::Reply;
use refutation_check::Part;
use rel_formula::Scenario;
use std::alloc::{AllocError, Global};
use std::marker::Model;

/// Cells, by their numbers.
#[derive(Drop)]
pub struct CellNumbers {
    numbers: Vec<u32>,
}

impl Model for CellNumbers {
    ghost use Rattle.std.specs.Prelude.{List, ℕ};

    ghost Value = { List ℕ };

    ghost view = { λ s. s.numbers.items };
}

impl CellNumbers {
    /// These numbers.
    pub fn of(numbers: Vec<u32>) -> CellNumbers
        ensures { result ≡ numbers.items }
    {
        CellNumbers { numbers }
    }

    /// The numbers, in order.
    pub fn numbers(&self) -> &[u32]
        ensures { result.now ≡ self.now }
    {
        self.numbers.as_slice()
    }

    /// Gives the numbers back.
    pub fn into_numbers(self) -> Vec<u32>
        ensures { result.items ≡ self }
    {
        self.numbers
    }

    /// Equal numbers.
    pub fn copy(&self, alloc: Global) -> Result<CellNumbers, AllocError>
        ensures { IfOk result (λ s. s ≡ self.now) }
    {
        let numbers = Vec::from_slice(alloc, self.numbers.as_slice())?;
        Ok(CellNumbers { numbers })
    }
}

/// Scenarios, one after the other.
#[derive(Drop)]
pub struct Scenarios {
    scenarios: Vec<Scenario>,
}

impl Model for Scenarios {
    ghost use Rattle.std.specs.Prelude.{List, ℕ};

    ghost Value = { List (List ℕ) };

    ghost view = { λ s. s.scenarios.items };
}

impl Scenarios {
    /// These scenarios.
    pub fn of(scenarios: Vec<Scenario>) -> Scenarios
        ensures { result ≡ scenarios.items }
    {
        Scenarios { scenarios }
    }

    /// The scenarios, in order.
    pub fn scenarios(&self) -> &[Scenario]
        ensures { result.now ≡ self.now }
    {
        self.scenarios.as_slice()
    }

    /// Gives the scenarios back.
    pub fn into_scenarios(self) -> Vec<Scenario>
        ensures { result.items ≡ self }
    {
        self.scenarios
    }

    /// Equal scenarios.
    pub fn copy(&self, alloc: Global) -> Result<Scenarios, AllocError>
        ensures { IfOk result (λ s. s ≡ self.now) }
    {
        let scenarios = copies_of_scenarios(alloc, self.scenarios.as_slice())?;
        Ok(Scenarios { scenarios })
    }
}

fn copies_of_scenarios(alloc: Global, scenarios: &[Scenario]) -> Result<Vec<Scenario>, AllocError>
    ensures { IfOk result (λ copies. copies.items ≡ scenarios.now) }
{
    let mut copies = Vec::new(alloc);
    for scenario in scenarios {
        copies.push(scenario.copy(alloc)?)?;
    }
    Ok(copies)
}

/// Parts of a search.
#[derive(Drop)]
pub struct Parts {
    parts: Vec<Part>,
}

impl Model for Parts {
    ghost use Rattle.std.specs.Prelude.{List};
    ghost use Rattle.refutation_check.specs.Part.{Parted};

    ghost Value = { List Parted };

    ghost view = { λ s. s.parts.items };
}

impl Parts {
    /// These parts.
    pub fn of(parts: Vec<Part>) -> Parts
        ensures { result ≡ parts.items }
    {
        Parts { parts }
    }

    /// The parts, in order.
    pub fn parts(&self) -> &[Part]
        ensures { result.now ≡ self.now }
    {
        self.parts.as_slice()
    }

    /// Gives the parts back.
    pub fn into_parts(self) -> Vec<Part>
        ensures { result.items ≡ self }
    {
        self.parts
    }

    /// Equal parts.
    pub fn copy(&self, alloc: Global) -> Result<Parts, AllocError>
        ensures { IfOk result (λ s. s ≡ self.now) }
    {
        let parts = copies_of_parts(alloc, self.parts.as_slice())?;
        Ok(Parts { parts })
    }
}

fn copies_of_parts(alloc: Global, parts: &[Part]) -> Result<Vec<Part>, AllocError>
    ensures { IfOk result (λ copies. copies.items ≡ parts.now) }
{
    let mut copies = Vec::new(alloc);
    for part in parts {
        copies.push(part.copy(alloc)?)?;
    }
    Ok(copies)
}

/// The replies to commands.
#[derive(Drop)]
pub struct Replies {
    replies: Vec<Reply>,
}

impl Model for Replies {
    ghost use Rattle.std.specs.Prelude.{List};
    ghost use Rattle.session_rules.specs.declared.answers.Reply.{Reply};

    ghost Value = { List Reply };

    ghost view = { λ s. s.replies.items };
}

impl Replies {
    /// These replies.
    pub fn of(replies: Vec<Reply>) -> Replies
        ensures { result ≡ replies.items }
    {
        Replies { replies }
    }

    /// The replies, in order.
    pub fn replies(&self) -> &[Reply]
        ensures { result.now ≡ self.now }
    {
        self.replies.as_slice()
    }

    /// Gives the replies back.
    pub fn into_replies(self) -> Vec<Reply>
        ensures { result.items ≡ self }
    {
        self.replies
    }

    /// Equal replies.
    pub fn copy(&self, alloc: Global) -> Result<Replies, AllocError>
        ensures { IfOk result (λ s. s ≡ self.now) }
    {
        let replies = copies_of_replies(alloc, self.replies.as_slice())?;
        Ok(Replies { replies })
    }
}

fn copies_of_replies(alloc: Global, replies: &[Reply]) -> Result<Vec<Reply>, AllocError>
    ensures { IfOk result (λ copies. copies.items ≡ replies.now) }
{
    let mut copies = Vec::new(alloc);
    for reply in replies {
        copies.push(reply.copy(alloc)?)?;
    }
    Ok(copies)
}
