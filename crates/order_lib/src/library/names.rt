// Names that stand at the place of an ordering's name, and lists of what is declared.
ghost use Rattle.std.specs.Prelude.{◌≡◌, ◌∷◌, ◌++◌, [], map, codes, IfOk, OnOk};
ghost use Rattle.alloy_syntax.specs.View.{paragraph_view};
ghost use Rattle.order_lib.specs.Library as spec;

use alloy_lex::Text;
use alloy_syntax::tree::{Multiplicity, MultiplicityWord, Name, Open, Paragraph};
use std::alloc::{AllocError, Global};

/// A name as it is.
pub fn plain(alloc: Global, ordering: &Open, text: &str) -> Result<Name, AllocError>
    ensures { IfOk result (λ n. n ≡ spec.plain ordering.now text.now) }
{
    Ok(Name {
        text: Text::of(alloc, text)?,
        place: ordering.alias.place,
    })
}

/// A name that the ordering declares: its own name, a slash, and the word.
pub fn own(alloc: Global, ordering: &Open, word: &str) -> Result<Name, AllocError>
    ensures { IfOk result (λ n. n ≡ spec.own ordering.now word.now) }
{
    let mut text = String::from_str(alloc, ordering.alias.text.text())?;
    text.push_str("/")?;
    text.push_str(word)?;
    plain(alloc, ordering, text.as_str())
}

/// The name of the ordered signature.
pub fn ordered(alloc: Global, ordering: &Open) -> Result<Name, AllocError>
    ensures { IfOk result (λ n. n ≡ spec.ordered ordering.now) }
{
    plain(alloc, ordering, ordering.signature.text.text())
}

/// One name.
pub fn one_name(alloc: Global, name: Name) -> Result<Vec<Name>, AllocError>
    ensures { IfOk result (λ ns. ns.items ≡ name ∷ []) }
{
    let mut names = Vec::new(alloc);
    names.push(name)?;
    Ok(names)
}

/// The names a and b.
pub fn a_and_b(alloc: Global, ordering: &Open) -> Result<Vec<Name>, AllocError>
    ensures { IfOk result (λ ns. ns.items ≡ spec.plain ordering.now (codes "a") ∷ spec.plain ordering.now (codes "b") ∷ []) }
{
    let mut names = Vec::new(alloc);
    names.push(plain(alloc, ordering, "a")?)?;
    names.push(plain(alloc, ordering, "b")?)?;
    Ok(names)
}

/// A multiplicity word.
pub fn word_at(ordering: &Open, multiplicity: Multiplicity) -> Option<MultiplicityWord>
    ensures { result ≡ spec.word_at ordering.now multiplicity }
{
    Some(MultiplicityWord {
        multiplicity,
        place: ordering.alias.place,
    })
}

/// Adds a paragraph.
#[tactic(auto, using(crate::proofs::Pushes::mapped_more))]
pub fn push(paragraphs: &mut Vec<Paragraph>, paragraph: Paragraph) -> Result<(), AllocError>
    ensures { OnOk result (map paragraph_view paragraphs.new.items ≡ map paragraph_view paragraphs.old.items ++ paragraph_view paragraph ∷ []) }
{
    paragraphs.push(paragraph)?;
    Ok(())
}
