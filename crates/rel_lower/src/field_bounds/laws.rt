// Laws of the definitions: each is the contract of a function that does nothing.
ghost use Rattle.std.specs.Prelude.{◌≡◌, ◌≤◌, ℕ, List, length, All, Ok};
ghost use Rattle.named_model.specs.Model.{FieldTree, NamedTree};
ghost use Rattle.model_sizes.specs.declared.size.Size.{Size};
ghost use Rattle.model_sizes.specs.Sizes.{sizes_in};
ghost use Rattle.rel_lower.specs.Bounding.Typed.{HasLists};
ghost use Rattle.rel_lower.specs.Lowered.{IsTyped};

use lowering_rules::laws::models_without_faults_are_typed;

/// Under a command there are at most as many sizes as signatures.
pub fn sizes_are_few()
    ensures { (m : NamedTree) (n : ℕ) (sizes : List Size) → sizes_in m n ≡ Ok sizes → length sizes ≤ length m.signatures }
{}

/// In a model with types the lists of each field's bound are as long as it has columns, of which there are at most two.
pub fn typed_fields_have_lists()
    ensures { (m : NamedTree) → IsTyped m → All (λ (f : FieldTree). HasLists m.signatures f.bound) m.fields }
{
    models_without_faults_are_typed();
}
