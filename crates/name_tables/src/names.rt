// The names in force at a place of a model.
ghost use Rattle.std.specs.Prelude.{◌≡◌, ℕ, [], ◌∷◌, drop, length, map, AllPairs, OnOk, OnErr};
ghost use Rattle.named_model.specs.Names as spec;
ghost use Rattle.name_tables.specs.InForce.{InForce, with_signature, with_field, with_callee, with_assertion, with_locals, word_at, AreWords, standing_of_word};

use crate::firsts::Firsts;
use crate::locals::Locals;
use crate::words::Words;
use named_model::Standing;
use std::alloc::{AllocError, Global};
use std::marker::Model;

/// The most fields of a model: as many as stand in a text of 1,048,576 bytes, where each belongs to one signature. The fields of
/// n signatures with m names in one paragraph are n * m, so a short text can have very many.
pub const MOST_FIELDS: usize = 1_048_576;

/// Whether a name is that of a function, and how many parameters there are.
#[derive(Clone, Copy)]
pub struct Header {
    pub is_function: bool,
    pub parameters: usize,
}

// A predicate or a function: the number of its word, and its header.
#[derive(Clone, Copy)]
pub struct Entry {
    pub word: usize,
    pub is_function: bool,
    pub parameters: usize,
}

/// The names in force at a place of a model: the global ones, each kind in order of declaration, and the local ones. Contracts
/// see the lists of them, of the local ones the innermost first.
pub struct Names {
    words: Words,
    signatures: Firsts,
    fields: Firsts,
    callees: Firsts,
    entries: Vec<Entry>,
    assertions: Firsts,
    locals: Locals,
}

impl Model for Names {
    ghost use Rattle.name_tables.specs.InForce.{InForce, in_force, AreTables};

    ghost Value = { InForce };

    ghost view = { λ n. in_force n.words n.signatures n.fields n.entries.items n.assertions n.locals };

    ghost invariant = { λ n. AreTables n.words n.signatures n.fields n.callees n.entries.items n.assertions n.locals };
}

// By hand, so that a caller's proof has one step wherever names are dropped.
impl Drop for Names {
    fn drop(self) {
        let Names {
            words: _,
            signatures: _,
            fields: _,
            callees: _,
            entries: _,
            assertions: _,
            locals: _,
        } = self;
    }
}

impl Names {
    /// No name.
    pub fn new(alloc: Global) -> Names
        ensures { result ≡ record { globals = record { signatures = []; fields = []; callees = []; assertions = [] }; locals = [] } }
    {
        Names {
            words: Words::new(alloc),
            signatures: Firsts::new(alloc),
            fields: Firsts::new(alloc),
            callees: Firsts::new(alloc),
            entries: Vec::new(alloc),
            assertions: Firsts::new(alloc),
            locals: Locals::new(alloc),
        }
    }

    /// What a name stands for: the innermost of the local names hides the others, and these hide the global ones.
    pub fn standing(&self, text: &str) -> Standing
        ensures { result ≡ spec.standing_of self.now.globals self.now.locals text.now }
    {
        match self.words.number(text) {
            Some(word) => standing_by(
                &self.locals,
                &self.signatures,
                &self.fields,
                &self.callees,
                word,
            ),
            None => Standing::Nothing,
        }
    }

    /// The number of the signature of a name.
    pub fn signature(&self, text: &str) -> Option<usize>
        ensures { result ≡ spec.number_of self.now.globals.signatures text.now }
    {
        first_of(&self.words, &self.signatures, text)
    }

    /// The number of the predicate or function of a name.
    pub fn callee(&self, text: &str) -> Option<usize>
        ensures { result ≡ spec.number_of (spec.callee_names self.now.globals) text.now }
    {
        first_of(&self.words, &self.callees, text)
    }

    /// The number of the assertion of a name.
    pub fn assertion(&self, text: &str) -> Option<usize>
        ensures { result ≡ spec.number_of self.now.globals.assertions text.now }
    {
        first_of(&self.words, &self.assertions, text)
    }

    /// The header of the predicate or function of a number; where there is none, that of a predicate without parameters.
    pub fn header(&self, number: usize) -> Header
        ensures function { result.is_function ≡ (spec.header_at self.now.globals number).is_function }
        ensures parameters { result.parameters ≡ (spec.header_at self.now.globals number).parameters }
    {
        match self.entries.get(number) {
            Some(entry) => Header {
                is_function: entry.is_function,
                parameters: entry.parameters,
            },
            None => Header {
                is_function: false,
                parameters: 0,
            },
        }
    }

    /// A signature more. After an error the names are as before.
    pub fn declare_signature(&mut self, alloc: Global, text: &str) -> Result<(), AllocError>
        ensures ok { OnOk result (self.new ≡ with_signature self.old text.now) }
        ensures err { OnErr result (self.new ≡ self.old) }
    {
        let word = self.words.meet(alloc, text)?;
        self.signatures.push(word)?;
        Ok(())
    }

    /// A field more. After an error the names are as before.
    pub fn declare_field(&mut self, alloc: Global, text: &str) -> Result<(), AllocError>
        ensures ok { OnOk result (self.new ≡ with_field self.old text.now) }
        ensures err { OnErr result (self.new ≡ self.old) }
    {
        let word = self.words.meet(alloc, text)?;
        self.fields.push(word)?;
        Ok(())
    }

    /// A predicate or a function more. After an error the names are as before.
    pub fn declare_callee(
        &mut self,
        alloc: Global,
        text: &str,
        header: Header,
    ) -> Result<(), AllocError>
        ensures ok { OnOk result (self.new ≡ with_callee self.old (record { name = text.now; is_function = header.is_function; parameters = header.parameters })) }
        ensures err { OnErr result (self.new ≡ self.old) }
    {
        let word = self.words.meet(alloc, text)?;
        self.entries.reserve(1)?;
        self.callees.push(word)?;
        let _ = self.entries.push(Entry {
            word,
            is_function: header.is_function,
            parameters: header.parameters,
        });
        Ok(())
    }

    /// An assertion more. After an error the names are as before.
    pub fn declare_assertion(&mut self, alloc: Global, text: &str) -> Result<(), AllocError>
        ensures ok { OnOk result (self.new ≡ with_assertion self.old text.now) }
        ensures err { OnErr result (self.new ≡ self.old) }
    {
        let word = self.words.meet(alloc, text)?;
        self.assertions.push(word)?;
        Ok(())
    }

    /// A local name more, inside the others. After an error the names are as before.
    pub fn enter(&mut self, alloc: Global, text: &str) -> Result<(), AllocError>
        ensures ok { OnOk result (self.new ≡ with_locals self.old (text.now ∷ self.old.locals)) }
        ensures err { OnErr result (self.new ≡ self.old) }
    {
        let word = self.words.meet(alloc, text)?;
        self.locals.enter(word)?;
        Ok(())
    }

    /// How many local names there are.
    pub fn depth(&self) -> usize
        ensures { result ≡ length self.now.locals }
    {
        self.locals.len()
    }

    /// Leaves the innermost local name, if there is one.
    pub fn leave(&mut self)
        ensures { self.new ≡ with_locals self.old (drop 1 self.old.locals) }
    {
        self.locals.leave();
    }
}

// The place of a name in a list of the numbers of words.
fn first_of(words: &Words, numbers: &Firsts, text: &str) -> Option<usize>
    requires once { AllPairs (λ a b. a ≡ b → ⊥) words.now }
    requires are { AreWords words.now numbers.now }
    ensures { result ≡ spec.number_of (map (word_at words.now) numbers.now) text.now }
{
    match words.number(text) {
        Some(word) => numbers.place(word),
        None => None,
    }
}

// What the name of the word of that number stands for.
fn standing_by(
    locals: &Locals,
    signatures: &Firsts,
    fields: &Firsts,
    callees: &Firsts,
    word: usize,
) -> Standing
    ensures { result ≡ standing_of_word locals.now signatures.now fields.now callees.now word }
{
    if let Some(place) = locals.place(word) {
        return Standing::Local(place);
    }
    if let Some(number) = signatures.place(word) {
        return Standing::Signature(number);
    }
    match fields.place(word) {
        Some(number) if fields.is_repeated(word) => Standing::Shared(number),
        Some(number) => Standing::Field(number),
        None => match callees.place(word) {
            Some(number) => Standing::Callee(number),
            None => Standing::Nothing,
        },
    }
}
