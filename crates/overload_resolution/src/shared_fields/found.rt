// What is found among some fields.
ghost use Rattle.std.specs.Prelude.{◌≡◌};
ghost use Rattle.overload_resolution.specs.Fields.Found.{both, the_found};
ghost use Rattle.overload_resolution.specs.declared.shared_fields.found.Found.TheVariants.{One};

use alloy_lex::Place;
use model_types::TypeFault;

// No field, the one of a number, or several.
#[derive(Clone, Copy)]
pub enum Found {
    Nothing,
    One(usize),
    Several,
}

impl Found {
    // What is found among these fields and those.
    pub fn and(self, other: Found) -> Found
        ensures { result ≡ both self other }
    {
        match self {
            Found::Nothing => other,
            Found::One(number) => other.beside(number),
            Found::Several => self,
        }
    }

    // What is found where a field is found too.
    fn beside(self, number: usize) -> Found
        ensures { result ≡ both (One number) self }
    {
        match self {
            Found::Nothing => Found::One(number),
            Found::One(other) if other == number => self,
            _ => Found::Several,
        }
    }

    // The field, where it is one. The place is that of its name.
    pub fn only(self, place: Place) -> Result<usize, TypeFault>
        ensures { result ≡ the_found place self }
    {
        match self {
            Found::One(number) => Ok(number),
            _ => Err(TypeFault::Ambiguous { place }),
        }
    }
}
