// Laws of the definitions: each is the contract of a function that does nothing.
ghost use Rattle.std.specs.Prelude.{◌≡◌, ℕ, List, Ok, Err};
ghost use Rattle.alloy_lex.specs.declared.token.Token.{Token};
ghost use Rattle.alloy_lex.specs.declared.token.LexFault.{LexFault};
ghost use Rattle.alloy_lex.specs.Tokens.{origin, tokens_of};
ghost use Rattle.alloy_lex.specs.Reading.{Reads, AreSlices, ArePlaced, IsRefused};

/// The tokens of a text are what it reads as: before, between and behind them stand only white space and comments, and
/// together they give the text back; each is the longest at its place. And it reads as no others.
pub fn tokens_are_the_reading()
    ensures read { (text : List ℕ) (ts : List Token) → tokens_of text ≡ Ok ts → Reads origin text ts }
    ensures only { (text : List ℕ) (ts : List Token) → Reads origin text ts → tokens_of text ≡ Ok ts }
{}

/// Two readings of one text are one.
pub fn a_reading_is_unique()
    ensures { (text : List ℕ) (ts us : List Token) → Reads origin text ts → Reads origin text us → ts ≡ us }
{}

/// Each token is the slice of its text from its start to its end, and they stand in order.
pub fn tokens_are_slices()
    ensures { (text : List ℕ) (ts : List Token) → tokens_of text ≡ Ok ts → AreSlices text 0 ts }
{}

/// Each token's place counts the lines and the characters before it.
pub fn places_count_characters()
    ensures { (text : List ℕ) (ts : List Token) → tokens_of text ≡ Ok ts → ArePlaced text ts }
{}

/// A fault says where no token is: before its place the text reads as tokens, white space and comments, and there nothing
/// of these begins, or a comment that nothing closes, or a number above a thousand.
pub fn a_fault_is_where_no_token_begins()
    ensures { (text : List ℕ) (e : LexFault) → tokens_of text ≡ Err e → IsRefused text e }
{}
