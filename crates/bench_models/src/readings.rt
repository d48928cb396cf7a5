// How far a text is brought.
ghost use Rattle.std.specs.Prelude.{◌<◌, ◌≤◌, length, IfSome, MatchOption};
ghost use Rattle.alloy_syntax.specs.View.{model_view};
ghost use Rattle.named_model.specs.Model.{NamedTree};
ghost use Rattle.named_model.specs.View.{named_view};
ghost use Rattle.rel_lower.specs.Lowered.{IsTyped};
ghost use Rattle.bench_models.specs.Readings.{AreCounted, IsAsked, IsFirst, IsFound, IsFoundIn, IsFoundNamed, IsFoundOf, IsSaid, steps};

use crate::found::{Counts, Found};
use alloy_lex::lex;
use alloy_parse::parse;
use alloy_syntax::tree::Model;
use alloy_types::check_types;
use bench_texts::Stage;
use lowering_rules::LowerFault;
use named_model::Named;
use rel_formula::Problem;
use rel_lower::lower;
use rel_terms::terms;
use sig_resolve::resolve;
use std::alloc::Global;

/// What is found in a text, brought so far; `None` where it has more than 1,048,576 bytes.
pub fn found(alloc: Global, stage: Stage, text: &str) -> Option<Found>
    ensures found { MatchOption result (1048576 < length text.now) (IsFound text.now) }
    ensures asked { IfSome result (IsAsked (steps stage)) }
{
    if text.len() > 1_048_576 {
        return None;
    }
    match stage {
        Stage::Text => Some(Found::Text),
        _ => Some(in_text(alloc, stage, text)),
    }
}

// What is found in a text that is read.
fn in_text(alloc: Global, stage: Stage, text: &str) -> Found
    requires { length text.now ≤ 1048576 }
    ensures found { IsFound text.now result }
    ensures asked { 1 ≤ steps stage → IsAsked (steps stage) result }
{
    let tokens = match lex(alloc, text) {
        Ok(tokens) => tokens,
        Err(fault) => return Found::NoTokens(fault),
    };
    match parse(alloc, &tokens) {
        Ok(tree) => in_tree(alloc, stage, &tree),
        Err(fault) => Found::NoTree(fault),
    }
}

// What is found in a tree.
fn in_tree(alloc: Global, stage: Stage, tree: &Model) -> Found
    ensures found { IsFoundIn (model_view tree.now) result }
    ensures asked { 1 ≤ steps stage → IsAsked (steps stage) result }
{
    if stage == Stage::Tree {
        return Found::Tree(tree.paragraphs.len());
    }
    match resolve(alloc, tree) {
        Ok(model) => in_named(alloc, stage, model),
        Err(fault) => Found::BadName(fault),
    }
}

// What is found in a model whose names have no fault.
fn in_named(alloc: Global, stage: Stage, model: Named) -> Found
    requires { IsSaid (named_view model) }
    ensures found { IsFoundNamed (named_view model) result }
    ensures asked { 2 ≤ steps stage → IsAsked (steps stage) result }
{
    if stage == Stage::Names {
        return Found::Names(counts(&model));
    }
    match check_types(alloc, model) {
        Ok(typed) => in_typed(alloc, stage, &typed),
        Err(fault) => Found::BadType(fault),
    }
}

// What is found in a model whose types have no fault.
fn in_typed(alloc: Global, stage: Stage, model: &Named) -> Found
    requires { IsTyped (named_view model.now) }
    ensures found { IsFoundOf (named_view model.now) result }
    ensures asked { 3 ≤ steps stage → IsAsked (steps stage) result }
{
    if stage == Stage::Types {
        return Found::Types(counts(model));
    }
    match lower(alloc, model, 1) {
        Ok(problem) => in_problem(alloc, stage, &problem),
        Err(fault) => Found::NoProblem(fault),
    }
}

// What is found in the problem of the first command.
fn in_problem(alloc: Global, stage: Stage, problem: &Problem) -> Found
    ensures found { (m : NamedTree) → IsFirst m problem.now → IsFoundOf m result }
    ensures asked { 4 ≤ steps stage → IsAsked (steps stage) result }
{
    if stage == Stage::Problem {
        return Found::Problem {
            relations: problem.relations().len(),
            cells: problem.cells(),
        };
    }
    match terms(alloc, problem) {
        Ok(Some(terms)) => Found::Terms(terms),
        Ok(None) => Found::NoProblem(LowerFault::TooManyTerms),
        Err(_) => Found::NoProblem(LowerFault::Memory),
    }
}

// How many of each a model declares.
fn counts(model: &Named) -> Counts
    ensures { AreCounted (named_view model.now) result }
{
    Counts {
        signatures: model.signatures.len(),
        fields: model.fields.len(),
        callees: model.callees.len(),
        facts: model.facts.len(),
        commands: model.commands.len(),
    }
}
