// From the text of a model to what it is.
ghost use Rattle.std.specs.Prelude.{◌≡◌, ◌≤◌, [], ℕ, List, length, IfOk};
ghost use Rattle.alloy_syntax.specs.Tree.{ModelTree};
ghost use Rattle.alloy_syntax.specs.View.{model_view};
ghost use Rattle.named_model.specs.View.{named_view};
ghost use Rattle.named_model.specs.Declarations.{named_of};
ghost use Rattle.named_model.specs.Faults.{faults_in};
ghost use Rattle.model_texts.specs.Texts.ModelText.{IsReading, IsWhole, IsTreeOf};

use crate::fault_words::{lex_words, name_words, order_words, parse_words, type_words};
use alloy_lex::lex;
use alloy_parse::parse;
use alloy_syntax::tree::Model;
use alloy_types::check_types;
use named_model::Named;
use order_lib::expand;
use sig_resolve::resolve;
use std::alloc::{AllocError, Global};

/// What the text of a model is.
#[derive(Drop)]
pub enum ModelText {
    /// A model whose names and types have no fault, and in which no name is shared.
    Typed(Named),
    /// No model: what stands behind the model's name in its fault line.
    Faulty(Vec<u8>),
}

/// Reads the text of a model, which has at most 1,048,576 bytes.
pub fn read_model(alloc: Global, text: &str) -> Result<ModelText, AllocError>
    requires { length text.now ≤ 1048576 }
    ensures { IfOk result (IsReading text.now) }
{
    let tokens = match lex(alloc, text) {
        Ok(tokens) => tokens,
        Err(fault) => return Ok(ModelText::Faulty(lex_words(alloc, fault)?)),
    };
    let tree = match parse(alloc, &tokens) {
        Ok(tree) => tree,
        Err(fault) => return Ok(ModelText::Faulty(parse_words(alloc, &fault)?)),
    };
    Ok(of_tree(alloc, tree)?)
}

// What the tree of a text is.
fn of_tree(alloc: Global, tree: Model) -> Result<ModelText, AllocError>
    ensures { IfOk result (λ x. (text : List ℕ) → IsTreeOf text (model_view tree) → IsReading text x) }
{
    match expand(alloc, tree) {
        Ok(whole) => Ok(of_whole(alloc, &whole)?),
        Err(fault) => Ok(ModelText::Faulty(order_words(alloc, fault)?)),
    }
}

// What a tree is whose orderings are expanded.
fn of_whole(alloc: Global, tree: &Model) -> Result<ModelText, AllocError>
    ensures { IfOk result (λ x. (text : List ℕ) → IsWhole text (model_view tree.now) → IsReading text x) }
{
    match resolve(alloc, tree) {
        Ok(model) => Ok(of_names(alloc, model)?),
        Err(fault) => Ok(ModelText::Faulty(name_words(alloc, fault)?)),
    }
}

// What a model is whose names have no fault.
fn of_names(alloc: Global, model: Named) -> Result<ModelText, AllocError>
    ensures { IfOk result (λ x. (text : List ℕ) (tree : ModelTree) → IsWhole text tree → faults_in tree ≡ [] → named_view model ≡ named_of tree → IsReading text x) }
{
    match check_types(alloc, model) {
        Ok(typed) => Ok(ModelText::Typed(typed)),
        Err(fault) => Ok(ModelText::Faulty(type_words(alloc, fault)?)),
    }
}
