// The names of facts.
ghost use Rattle.std.specs.Prelude.{◌≡◌, ◌++◌, map, flat_map, option_map, IfOk, OnOk};
ghost use Rattle.alloy_syntax.specs.declared.tree.Name.{Name as NameTree};
ghost use Rattle.alloy_syntax.specs.View.{paragraph_view};
ghost use Rattle.named_model.specs.Declarations.{fact_names};

use alloy_lex::Text;
use alloy_syntax::tree::{Name, Paragraph};
use std::alloc::{AllocError, Global};

// The name of each fact of the paragraphs, if it has one.
pub fn fact_names(alloc: Global, paragraphs: &[Paragraph]) -> Result<Vec<Option<Text>>, AllocError>
    ensures { IfOk result (λ found. found.items ≡ flat_map fact_names (map paragraph_view paragraphs.now)) }
{
    let mut found = Vec::new(alloc);
    for paragraph in paragraphs {
        add(alloc, paragraph, &mut found)?;
    }
    Ok(found)
}

// The name of a fact is put behind the others.
fn add(
    alloc: Global,
    paragraph: &Paragraph,
    found: &mut Vec<Option<Text>>,
) -> Result<(), AllocError>
    ensures { OnOk result (found.new.items ≡ found.old.items ++ fact_names (paragraph_view paragraph.now)) }
{
    match paragraph {
        Paragraph::Fact(name, _) => {
            let text = text_of(alloc, name)?;
            found.push(text)?;
            Ok(())
        }
        Paragraph::Signatures(_) => Ok(()),
        Paragraph::Predicate(_, _, _) => Ok(()),
        Paragraph::Function(_) => Ok(()),
        Paragraph::Assertion(_, _) => Ok(()),
        Paragraph::Command(_) => Ok(()),
    }
}

// The text of a name, if there is one.
fn text_of(alloc: Global, name: &Option<Name>) -> Result<Option<Text>, AllocError>
    ensures { IfOk result (λ found. found ≡ option_map (λ (n : NameTree). n.text) name.now) }
{
    match name {
        Some(name) => Ok(Some(name.text.copy(alloc)?)),
        None => Ok(None),
    }
}
