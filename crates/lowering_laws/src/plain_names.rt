// A law of texts: the contract of a function that does nothing.
ghost use Rattle.std.specs.Prelude.{◌≡◌, ℕ, List, Ok};
ghost use Rattle.alloy_lex.specs.declared.token.Token.{Token};
ghost use Rattle.alloy_lex.specs.Tokens.{tokens_of};
ghost use Rattle.alloy_syntax.specs.Tree.{ModelTree};
ghost use Rattle.alloy_syntax.specs.ParserTokens.{seen_all};
ghost use Rattle.alloy_syntax.specs.Paragraphs.{model_of};
ghost use Rattle.lowering_laws.specs.OrderingTexts.{HasPlainNames};

use alloy_grammar::laws::what_is_read_is_a_text;
use alloy_lex::laws::tokens_are_the_reading;

/// No name that a text declares itself has a slash.
pub fn texts_have_plain_names()
    ensures { (text : List ℕ) (ts : List Token) (t : ModelTree) → tokens_of text ≡ Ok ts → model_of (seen_all ts) ≡ Ok t → HasPlainNames t }
{
    tokens_are_the_reading();
    what_is_read_is_a_text();
}
