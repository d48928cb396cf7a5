// Laws of the definitions: each is the contract of a function that does nothing.
ghost use Rattle.std.specs.Prelude.{◌≡◌, ℕ, List, ◌++◌, Bool, true, Err};
ghost use Rattle.alloy_syntax.specs.declared.parser_token.ParserToken.{ParserToken};
ghost use Rattle.alloy_syntax.specs.declared.reading.Form.{Form};
ghost use Rattle.alloy_syntax.specs.Readers.{ParseStopView, refused, too_deep, unsupported};
ghost use Rattle.alloy_syntax.specs.Paragraphs.{model_at};
ghost use Rattle.alloy_grammar.specs.Faults.Stops.{unread};
ghost use Rattle.alloy_grammar.specs.Refusals.Texts.{GoesOn};
ghost use Rattle.alloy_grammar.specs.Prefixes.Beginnings.{Begins, may_stand, HasForm};

/// Wherever reading stops, and for whatever fault, the tokens before the one at fault begin a text of the grammar. Where the end
/// is refused, all of the tokens do.
pub fn what_stands_before_a_fault_goes_on()
    ensures { (strict : Bool) (limit : ℕ) (before : List ParserToken) (stop : ParseStopView) → model_at strict limit (before ++ unread stop) ≡ Err stop → Begins before }
{}

/// A token that lies too deep can stand there: a text of the grammar begins with the tokens before it, and has a token of its
/// terminal next. So no limit refuses it.
pub fn what_lies_too_deep_can_stand_there()
    ensures goes_on { (strict : Bool) (limit : ℕ) (before rest : List ParserToken) → model_at strict limit (before ++ rest) ≡ Err (too_deep rest) → GoesOn before rest }
    ensures not_refused { (strict lenient : Bool) (limit more : ℕ) (before rest : List ParserToken) → model_at strict limit (before ++ rest) ≡ Err (too_deep rest) → model_at lenient more (before ++ rest) ≡ Err (refused rest) → ⊥ }
{}

/// Where a form is refused, it stands. The token that names it can stand there, as `may_stand` says of the form: a text of the
/// grammar begins with the tokens before it, and has a token of its terminal next.
pub fn a_refused_form_stands_there()
    ensures form { (strict : Bool) (limit : ℕ) (f : Form) (before rest : List ParserToken) → model_at strict limit (before ++ rest) ≡ Err (unsupported f rest) → HasForm f before rest }
    ensures goes_on { (strict : Bool) (limit : ℕ) (f : Form) (before rest : List ParserToken) → model_at strict limit (before ++ rest) ≡ Err (unsupported f rest) → may_stand f ≡ true → GoesOn before rest }
{}
