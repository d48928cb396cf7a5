// Where parts begin.
ghost use Rattle.std.specs.Prelude.{◌≡◌};
ghost use Rattle.named_model.specs.View.{phrase_view};
ghost use Rattle.model_types.specs.Sorts.{first_place};

use alloy_lex::Place;
use named_model::phrase::Phrase;

/// The first token of a part.
pub fn first_place(phrase: &Phrase) -> Place
    ensures { result ≡ first_place (phrase_view phrase.now) }
{
    match phrase {
        Phrase::Refers(place, _)
        | Phrase::Called(place, _, _)
        | Phrase::Constant(_, place)
        | Phrase::Bracketed(place, _)
        | Phrase::Block(place, _)
        | Phrase::Prefixed(_, place, _)
        | Phrase::Quantified(_, place, _, _)
        | Phrase::Let(place, _, _) => *place,
        Phrase::Numbered(number) => number.place,
        Phrase::Chain(first, _)
        | Phrase::Path(first, _)
        | Phrase::Compared(first, _, _)
        | Phrase::Implies(first, _, _)
        | Phrase::ImpliesElse(first, _, _, _) => first_place(first),
    }
}
