// Laws of the definitions: each is the contract of a function that does nothing.
ghost use Rattle.std.specs.Prelude.{◌≡◌, ◌⊎◌, ℕ, List};
ghost use Rattle.named_model.specs.Model.{NamedTree};
ghost use Rattle.model_texts.specs.Texts.ModelText.{SaysModel, IsFaulty};

/// A text is one thing: it says one model, or has one fault.
pub fn a_text_is_one_thing()
    ensures model { (text : List ℕ) (m n : NamedTree) → SaysModel text m → SaysModel text n → m ≡ n }
    ensures fault { (text words others : List ℕ) → IsFaulty text words → IsFaulty text others → words ≡ others }
    ensures faulty { (text words : List ℕ) (m : NamedTree) → SaysModel text m → IsFaulty text words → ⊥ }
{}

/// Each text is a model or has a fault.
pub fn each_text_is_something()
    ensures { (text : List ℕ) → ((m : NamedTree) × SaysModel text m) ⊎ ((words : List ℕ) × IsFaulty text words) }
{}
