// Laws of the definitions: each is the contract of a function that does nothing.
ghost use Rattle.std.specs.Prelude.{◌≡◌, ◌<◌, ◌≤◌, ℕ, List, Bool, true, Ok};
ghost use Rattle.alloy_syntax.specs.declared.parser_token.ParserToken.{ParserToken};
ghost use Rattle.alloy_syntax.specs.Tree.{ModelTree};
ghost use Rattle.alloy_syntax.specs.Paragraphs.{model_at, model_of, depth_limit};
ghost use Rattle.alloy_grammar.specs.Models.{IsTextOf, depth_of_model, IsPlainModel};

/// The tree that is read of tokens is one that they spell, all of them. Its constructs nest within the limit, and it has no
/// form that the language refuses.
pub fn what_is_read_is_a_text()
    ensures spelled { (ts : List ParserToken) (m : ModelTree) → model_of ts ≡ Ok m → IsTextOf ts m }
    ensures shallow { (ts : List ParserToken) (m : ModelTree) → model_of ts ≡ Ok m → depth_of_model m ≤ depth_limit }
    ensures plain { (ts : List ParserToken) (m : ModelTree) → model_of ts ≡ Ok m → IsPlainModel m }
{}

/// A text is read as its tree, where the tree's constructs nest within the limit and it has no form that the language refuses.
pub fn a_text_is_read()
    ensures { (ts : List ParserToken) (m : ModelTree) → IsTextOf ts m → depth_of_model m ≤ depth_limit → IsPlainModel m → model_of ts ≡ Ok m }
{}

/// A text has one tree.
pub fn a_text_has_one_tree()
    ensures { (ts : List ParserToken) (m n : ModelTree) → IsTextOf ts m → IsTextOf ts n → m ≡ n }
{}

/// Under another limit, and where forms that the language refuses may pass, what is read is a text too, and a text is read.
pub fn other_limits_read_texts()
    ensures spelled { (strict : Bool) (limit : ℕ) → 0 < limit → (ts : List ParserToken) (m : ModelTree) → model_at strict limit ts ≡ Ok m → IsTextOf ts m }
    ensures shallow { (strict : Bool) (limit : ℕ) → 0 < limit → (ts : List ParserToken) (m : ModelTree) → model_at strict limit ts ≡ Ok m → depth_of_model m ≤ limit }
    ensures read { (strict : Bool) (limit : ℕ) → 0 < limit → (ts : List ParserToken) (m : ModelTree) → IsTextOf ts m → depth_of_model m ≤ limit → (strict ≡ true → IsPlainModel m) → model_at strict limit ts ≡ Ok m }
{}
