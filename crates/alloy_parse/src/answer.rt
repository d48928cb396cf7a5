// A model's tree, or the fault with the earliest place.
ghost use Rattle.std.specs.Prelude.{◌≡◌, Some, Result, IfOk, IfErr, Ok};
ghost use Rattle.alloy_syntax.specs.ParserTokens.{seen, seen_all};
ghost use Rattle.alloy_syntax.specs.Readers.{ParseStopView, refused};
ghost use Rattle.alloy_syntax.specs.Tree.{ModelTree};
ghost use Rattle.alloy_syntax.specs.Paragraphs.{model_of};
ghost use Rattle.alloy_syntax.specs.View.{model_view};
ghost use Rattle.alloy_syntax.specs.Gives.{Fails};
ghost use Rattle.alloy_parse.specs.declared.fault.ParseFault.TheVariants.{Unsupported};
ghost use Rattle.alloy_lex.specs.Reading.{AreSized, IsSized};
ghost use Rattle.alloy_parse.specs.Faults.{place_behind, end_of, place_of, word_of, refusal_of, fault_of, Refuses};

use crate::fault::ParseFault;
use crate::paragraphs::model;
use alloy_lex::{Place, Text, Token};
use alloy_syntax::parse_stop::{ParseStop, Tokens, seen_tokens};
use alloy_syntax::reading::Form;
use alloy_syntax::tree::Model;
use alloy_syntax::{Class, ParserToken, is_class};
use std::alloc::{AllocError, Global};

// Just behind a token.
fn place_behind(token: &Token) -> Place
    requires { IsSized token.now }
    ensures { result ≡ place_behind (Some token.now) }
{
    Place {
        line: token.place.line,
        column: token.place.column + token.text.text().len() as u32,
    }
}

// Just behind the last token, or the first place of a text.
fn end_of(tokens: &[Token]) -> Place
    requires { AreSized tokens.now }
    ensures { result ≡ end_of tokens.now }
{
    match tokens.last() {
        None => Place { line: 1, column: 1 },
        Some(token) => place_behind(token),
    }
}

fn word_of(form: Form) -> &'static str
    ensures { result.now ≡ word_of form }
{
    match form {
        Form::Comprehension => "comprehension",
        Form::Appended => "appended",
        Form::ArrowMultiplicity => "arrow_multiplicity",
        Form::Several => "several",
        Form::Open => "open",
    }
}

// A refused form.
fn unsupported(alloc: Global, form: Form, place: Place) -> Result<ParseFault, AllocError>
    ensures { IfOk result (λ f. f ≡ Unsupported place (word_of form)) }
{
    let word = Text::of(alloc, word_of(form))?;
    Ok(ParseFault::Unsupported { place, word })
}

// A token that can't stand there.
fn refusal(alloc: Global, token: &ParserToken) -> Result<ParseFault, AllocError>
    ensures { IfOk result (λ f. f ≡ refusal_of token.now) }
{
    let place = token.place;
    if is_class(token.class, Class::Refused) {
        let word = Text::of(alloc, token.text.text())?;
        return Ok(ParseFault::Unsupported { place, word });
    }
    Ok(ParseFault::Unexpected { place })
}

// The fault where the tokens that are left can't go on.
fn refused_at(alloc: Global, all: &[Token], rest: Tokens) -> Result<ParseFault, AllocError>
    requires { AreSized all.now }
    ensures { IfOk result (λ f. f ≡ fault_of all.now (refused rest.entry.left.now)) }
{
    match rest.left {
        [] => Ok(ParseFault::EndOfText { place: end_of(all) }),
        [token, ..] => refusal(alloc, token),
    }
}

// Where the next token stands, or just behind the last.
fn place_of(all: &[Token], rest: Tokens) -> Place
    requires { AreSized all.now }
    ensures { result ≡ place_of all.now rest.entry.left.now }
{
    match rest.left {
        [] => end_of(all),
        [token, ..] => token.place,
    }
}

// Why no tree is answered, as a fault of all the tokens.
fn fault_at(alloc: Global, all: &[Token], stop: ParseStop) -> ParseFault
    requires { AreSized all.now }
    ensures { (read : Result ModelTree ParseStopView) → Fails stop.entry read → Refuses all.now result read }
{
    match stop {
        ParseStop::Memory => ParseFault::Memory,
        ParseStop::Refused(rest) => refused_at(alloc, all, rest).unwrap_or(ParseFault::Memory),
        ParseStop::Deep(rest) => ParseFault::TooDeep {
            place: place_of(all, rest),
        },
        ParseStop::Unsupported(form, rest) => unsupported(
            alloc,
            form,
            place_of(all, rest),
        ).unwrap_or(ParseFault::Memory),
    }
}

/// The tree of the model that the tokens are, or the first fault. The tokens are of a text of at most 1,048,576 bytes.
/// A token under more than 200 constructs is a fault.
pub fn parse(alloc: Global, tokens: &[Token]) -> Result<Model, ParseFault>
    requires { AreSized tokens.now }
    // The tree of the model that the tokens are.
    ensures ok { IfOk result (λ m. model_of (seen_all tokens.now) ≡ Ok (model_view m)) }
    // No memory, or where reading stops.
    ensures fault { IfErr result (λ f. Refuses tokens.now f (model_of (seen_all tokens.now))) }
{
    let seen = seen_tokens(alloc, tokens)?;
    match model(
        alloc,
        Tokens {
            left: seen.as_slice(),
        },
    ) {
        Ok(model) => Ok(model),
        Err(stop) => Err(fault_at(alloc, tokens, stop)),
    }
}
