// One line of a proof text.
ghost use Rattle.std.specs.Prelude.{◌≡◌, ◌≢◌, ◌≤◌, ◌↔◌, ◌∷◌, [], true, false, All, codes, IsTrue, IfOk, IfSome, IfNone, Option, MatchOption};
ghost use Rattle.refutation_check.specs.declared.proof_text.word.Word.TheVariants.{End};
ghost use Rattle.refutation_check.specs.ProofText.{words_in, IsLiteral, IsNumber};
ghost use Rattle.refutation_check.specs.Scanned.{literal_in, number_in, read_literal, read_number, IsReadTo, HasNoFront, IsForm};

use crate::proof_text::word::{MOST, Word, next_word};
use cnf_core::Lit;
use std::alloc::AllocError;

/// Which form a line has.
#[derive(Clone, Copy, Debug, PartialEq, Eq)]
pub enum Form {
    /// No words.
    Blank,
    /// `c LITERALS 0`
    Clause,
    /// `s LITERALS 0 HINTS 0`
    Step,
    /// Another one.
    Other,
}

fn literal_in(word: Word) -> Option<Lit>
    ensures { result ≡ literal_in word }
{
    match word {
        Word::Number(var) => Some(Lit {
            var,
            positive: true,
        }),
        Word::Negative(var) => Some(Lit {
            var,
            positive: false,
        }),
        _ => None,
    }
}

fn number_in(word: Word) -> Option<u32>
    ensures { result ≡ number_in word }
{
    match word {
        Word::Number(number) => Some(number),
        _ => None,
    }
}

// What stands behind a `0`.
fn behind_end<'a>(word: Word, behind: &'a [u8]) -> Option<&'a [u8]>
    ensures none { IfNone result (word ≢ Word.End) }
    ensures some { IfSome result (λ rest. (word ≡ Word.End) × (rest.now ≡ behind.now)) }
{
    match word {
        Word::End => Some(behind),
        _ => None,
    }
}

// Reads literals to their `0`, puts them at the end, and gives what stands behind; none where another word comes first.
fn literals<'a>(line: &'a [u8], into: &mut Vec<Lit>) -> Result<Option<&'a [u8]>, AllocError>
    ensures none { IfOk result (λ found. IfNone found (HasNoFront IsLiteral line.now)) }
    ensures some { IfOk result (λ found. IfSome found (λ rest. IsReadTo IsLiteral read_literal line.now into.old.items into.new.items rest.now)) }
{
    let mut rest = line;
    'each: while let Some((word, behind)) = next_word(rest) {
        let Some(lit) = literal_in(word) else {
            return Ok(behind_end(word, behind));
        };
        into.push(lit)?;
        rest = behind;
    }
    Ok(None)
}

// Reads hints to their `0`, puts them at the end, and gives what stands behind; none where another word comes first.
fn hints<'a>(line: &'a [u8], into: &mut Vec<u32>) -> Result<Option<&'a [u8]>, AllocError>
    ensures none { IfOk result (λ found. IfNone found (HasNoFront IsNumber line.now)) }
    ensures some { IfOk result (λ found. IfSome found (λ rest. IsReadTo IsNumber read_number line.now into.old.items into.new.items rest.now)) }
{
    let mut rest = line;
    'each: while let Some((word, behind)) = next_word(rest) {
        let Some(number) = number_in(word) else {
            return Ok(behind_end(word, behind));
        };
        into.push(number)?;
        rest = behind;
    }
    Ok(None)
}

fn is_blank(line: &[u8]) -> bool
    ensures blank { result ≡ true → words_in line.now ≡ [] }
    ensures words { result ≡ false → words_in line.now ≢ [] }
{
    next_word(line).is_none()
}

// The form of a line that begins with `c`, from behind that word.
fn clause_form(rest: &[u8], lits: &mut Vec<Lit>) -> Result<Form, AllocError>
    requires { lits.old.items ≡ [] }
    ensures { IfOk result (λ form. IsForm (codes "c" ∷ words_in rest.now) form lits.new.items []) }
{
    match literals(rest, lits)? {
        Some(behind) if is_blank(behind) => Ok(Form::Clause),
        _ => Ok(Form::Other),
    }
}

// The form of a line that begins with `s`, from behind that word.
fn step_form(rest: &[u8], lits: &mut Vec<Lit>, numbers: &mut Vec<u32>) -> Result<Form, AllocError>
    requires lits { lits.old.items ≡ [] }
    requires numbers { numbers.old.items ≡ [] }
    ensures { IfOk result (λ form. IsForm (codes "s" ∷ words_in rest.now) form lits.new.items numbers.new.items) }
{
    let Some(behind) = literals(rest, lits)? else {
        return Ok(Form::Other);
    };
    match hints(behind, numbers)? {
        Some(behind) if is_blank(behind) => Ok(Form::Step),
        _ => Ok(Form::Other),
    }
}

/// The form of a line, with its literals and hints, which are put into empty lists.
pub fn form_of(line: &[u8], lits: &mut Vec<Lit>, numbers: &mut Vec<u32>) -> Result<Form, AllocError>
    requires lits { lits.old.items ≡ [] }
    requires numbers { numbers.old.items ≡ [] }
    ensures { IfOk result (λ form. IsForm (words_in line.now) form lits.new.items numbers.new.items) }
{
    match next_word(line) {
        None => Ok(Form::Blank),
        Some((Word::Clause, rest)) => clause_form(rest, lits),
        Some((Word::Step, rest)) => step_form(rest, lits, numbers),
        Some(_) => Ok(Form::Other),
    }
}

/// Whether no number is above 2,147,483,647.
pub fn are_small(lits: &[Lit], numbers: &[u32]) -> bool
    ensures { IsTrue result ↔ (All (λ l. l.var ≤ 2147483647) lits.now × All (λ n. n ≤ 2147483647) numbers.now) }
{
    lits.iter().all(|l| l.var <= MOST) && numbers.iter().all(|n| *n <= MOST)
}
