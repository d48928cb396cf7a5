// Laws of the definitions: each is the contract of a function that does nothing.
ghost use Rattle.std.specs.Prelude.{◌≡◌, ◌<◌, ℕ, List, Option, length};
ghost use Rattle.named_model.specs.declared.named.Signature.{Signature};
ghost use Rattle.named_model.specs.Phrase.{PhraseTree};
ghost use Rattle.named_model.specs.Model.{NamedTree};
ghost use Rattle.model_types.specs.Bounding.{Lists};
ghost use Rattle.model_types.specs.Typing.{Local, Field, Header, settled, types_in, call_type};
ghost use Rattle.model_types.specs.Models.{callee_within, declared_in};
ghost use Rattle.overload_resolution.specs.Expressions.Types.{calls_within};
ghost use Rattle.alloy_types.specs.Headers.Called.{EachCalled, AreRanks};
ghost use Rattle.alloy_types.specs.Headers.Bodies.{bodies_of, AreLow};

/// A part is settled alike where the same is known of the predicates and functions that it calls.
pub fn parts_rest_on_what_they_call()
    ensures { (signatures : List Signature) (fields : List Field) (f g : ℕ → Option Header) (locals : List Local) (tops : List ℕ) (x : PhraseTree) → EachCalled (λ n. f n ≡ g n) x → settled (record { signatures = signatures; fields = fields; callee = f }) locals tops x ≡ settled (record { signatures = signatures; fields = fields; callee = g }) locals tops x }
{}

/// What is known of a predicate or function is the same for every depth of calls above its rank.
pub fn headers_are_settled_by_ranks()
    ensures { (m : NamedTree) (rank : ℕ → ℕ) (j k n : ℕ) → AreRanks m rank → rank n < j → rank n < k → callee_within m j n ≡ callee_within m k n }
{}

/// A call has the type of the body of what is called, in which no name is shared.
pub fn calls_have_the_types_of_bodies()
    ensures { (m : NamedTree) (rank : ℕ → ℕ) → AreRanks m rank → AreLow m rank → (n : ℕ) (arguments : List Lists) → calls_within m.signatures (types_in (declared_in m)).fields (bodies_of m) (length m.callees) n arguments ≡ call_type ((declared_in m).callee n) arguments }
{}
