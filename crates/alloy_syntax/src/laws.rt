// Laws of the definitions: each is the contract of a function that does nothing.
ghost use Rattle.std.specs.Prelude.{◌≡◌, map};
ghost use Rattle.alloy_lex.specs.Words.{language_words, symbols as spelled_symbols};
ghost use Rattle.alloy_syntax.specs.Class.{words, symbols};

/// The table of the words has the words of the language, and the table of the symbols its symbols, in order; so what no
/// entry spells is a refused word.
pub fn tables_are_the_lexers()
    ensures words { map (λ entry. entry.0) words ≡ language_words }
    ensures symbols { map (λ entry. entry.0) symbols ≡ spelled_symbols }
{}
