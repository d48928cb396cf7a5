// Laws of the definitions: each is the contract of a function that does nothing.
ghost use Rattle.std.specs.Prelude.{◌≡◌, ◌≤◌, ◌<◌, ℕ, List, ◌∷◌, ◌++◌, Bool, true, false, Result, Err};
ghost use Rattle.alloy_syntax.specs.declared.parser_token.ParserToken.{ParserToken};
ghost use Rattle.alloy_syntax.specs.Readers.{ParseStopView, refused, too_deep};
ghost use Rattle.alloy_syntax.specs.Paragraphs.{model_at};
ghost use Rattle.alloy_grammar.specs.Faults.Stops.{unread, AreLast};
ghost use Rattle.alloy_grammar.specs.Refusals.Texts.{GoesOn};

/// Where a token is refused, no text of the grammar goes on: none begins with the tokens before it and then has a token of its
/// terminal, whatever stands behind. Where the end is refused, the tokens themselves are no text. So it is under each limit, and where
/// forms may pass that the language refuses.
pub fn no_text_goes_on()
    ensures { (strict : Bool) (limit : ℕ) (before rest : List ParserToken) → model_at strict limit (before ++ rest) ≡ Err (refused rest) → GoesOn before rest → ⊥ }
{}

/// The fault that a text has is the first of all: under each greater limit, and where forms may pass, reading stops there or behind
/// it, if it stops. So nothing is at fault before what lies too deep.
pub fn no_fault_stands_before_the_first()
    ensures { (limit more : ℕ) (ts : List ParserToken) (stop other : ParseStopView) → limit ≤ more → model_at true limit ts ≡ Err stop → model_at false more ts ≡ Err other → AreLast (unread stop) (unread other) }
{}

/// Depth is the one fault of its token: what lies too deep is neither refused nor a refused form, under any limit, where forms may
/// pass. If reading stops there again, it does so since the token still lies too deep.
pub fn what_lies_too_deep_has_no_other_fault()
    ensures { (strict : Bool) (limit other : ℕ) (ts rest : List ParserToken) (stop : ParseStopView) → model_at strict limit ts ≡ Err (too_deep rest) → model_at false other ts ≡ Err stop → unread stop ≡ rest → stop ≡ too_deep rest }
{}

/// Where one construct more may nest, what lay too deep is read: under each greater limit, where forms may pass, reading stops behind
/// that token, if it stops. (The lesser limit isn't 0: under 0 and 1 alike, nothing may nest in the brackets of parameters.)
pub fn what_lies_too_deep_is_read_under_each_greater_limit()
    ensures { (strict : Bool) (limit more : ℕ) (ts rest : List ParserToken) (stop : ParseStopView) → 0 < limit → limit < more → model_at strict limit ts ≡ Err (too_deep rest) → model_at false more ts ≡ Err stop → (t : ParserToken) × (us : List ParserToken) × (rest ≡ t ∷ us) × AreLast us (unread stop) }
{}
