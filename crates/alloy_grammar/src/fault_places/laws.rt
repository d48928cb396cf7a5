// Laws of the definitions: each is the contract of a function that does nothing.
ghost use Rattle.std.specs.Prelude.{◌≡◌, ◌<◌, ◌≤◌, ℕ, List, Bool, true, false, Result, Ok, Err};
ghost use Rattle.alloy_syntax.specs.declared.parser_token.ParserToken.{ParserToken};
ghost use Rattle.alloy_syntax.specs.declared.reading.Form.{Form};
ghost use Rattle.alloy_syntax.specs.Tree.{ModelTree};
ghost use Rattle.alloy_syntax.specs.Readers.{ParseStopView, refused, too_deep, unsupported};
ghost use Rattle.alloy_syntax.specs.Paragraphs.{model_at, model_of, depth_limit};
ghost use Rattle.alloy_grammar.specs.Models.{IsTextOf, depth_of_model, IsPlainModel};
ghost use Rattle.alloy_grammar.specs.Faults.Stops.{unread, AreLast};

/// Which faults a text of the grammar may have. At no token is it refused as one that can't stand there, however deep its
/// constructs nest, and whatever forms it has. Where it lies too deep, its constructs do nest deeper than the limit; where a
/// form is refused, it does have one.
pub fn a_text_has_only_its_own_faults()
    ensures refused { (ts rest : List ParserToken) (m : ModelTree) → model_of ts ≡ Err (refused rest) → IsTextOf ts m → ⊥ }
    ensures too_deep { (ts rest : List ParserToken) (m : ModelTree) → model_of ts ≡ Err (too_deep rest) → IsTextOf ts m → depth_limit < depth_of_model m }
    ensures unsupported { (f : Form) (ts rest : List ParserToken) (m : ModelTree) → model_of ts ≡ Err (unsupported f rest) → IsTextOf ts m → IsPlainModel m → ⊥ }
{}

/// Under a greater limit what was read is read alike, and each fault but of depth stands at the same token.
pub fn a_greater_limit_moves_no_other_fault()
    ensures read { (strict : Bool) (limit more : ℕ) → limit ≤ more → (ts : List ParserToken) (m : ModelTree) → model_at strict limit ts ≡ Ok m → model_at strict more ts ≡ Ok m }
    ensures refused { (strict : Bool) (limit more : ℕ) → limit ≤ more → (ts rest : List ParserToken) → model_at strict limit ts ≡ Err (refused rest) → model_at strict more ts ≡ Err (refused rest) }
    ensures unsupported { (strict : Bool) (limit more : ℕ) → limit ≤ more → (f : Form) (ts rest : List ParserToken) → model_at strict limit ts ≡ Err (unsupported f rest) → model_at strict more ts ≡ Err (unsupported f rest) }
{}

/// Where forms may pass that the language refuses, what was read is read alike, and each fault but of a form stands at the
/// same token.
pub fn forms_that_pass_move_no_other_fault()
    ensures read { (limit : ℕ) (ts : List ParserToken) (m : ModelTree) → model_at true limit ts ≡ Ok m → model_at false limit ts ≡ Ok m }
    ensures refused { (limit : ℕ) (ts rest : List ParserToken) → model_at true limit ts ≡ Err (refused rest) → model_at false limit ts ≡ Err (refused rest) }
    ensures too_deep { (limit : ℕ) (ts rest : List ParserToken) → model_at true limit ts ≡ Err (too_deep rest) → model_at false limit ts ≡ Err (too_deep rest) }
{}

/// Reading stops among the tokens: those that it leaves unread are the last of them.
pub fn a_fault_stands_among_the_tokens()
    ensures { (strict : Bool) (limit : ℕ) (ts : List ParserToken) (stop : ParseStopView) → model_at strict limit ts ≡ Err stop → AreLast ts (unread stop) }
{}
