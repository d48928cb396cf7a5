// Laws of the definitions: each is the contract of a function that does nothing.
ghost use Rattle.std.specs.Prelude.{◌≡◌, [], Ok};
ghost use Rattle.alloy_syntax.specs.Tree.{ModelTree};
ghost use Rattle.named_model.specs.Model.{NamedTree};
ghost use Rattle.named_model.specs.Faults.{faults_in};
ghost use Rattle.named_model.specs.Declarations.{named_of};
ghost use Rattle.model_types.specs.Models.{types_checked};
ghost use Rattle.lowering_laws.specs.Lying.{ValuesLieInTypes, VariablesLieInTypes, ParametersLieInTypes, LetNamesLieInTypes};

/// In every scenario of a problem of a model without faults, the value of each expression lies in its bounding type, where the
/// value of each local name lies in its own.
pub fn values_lie_in_types()
    ensures { (t : ModelTree) → faults_in t ≡ [] → types_checked (named_of t) ≡ Ok tt → ValuesLieInTypes (named_of t) }
{}

/// The values of local names lie in their types wherever a part of a body stands: those of variables, which are atoms of their
/// domains, in the types of the domains; those of parameters, where each lies in the type of its domain; and those of a `let` in
/// the types of what it gives to its names.
pub fn local_names_lie_in_types()
    ensures variables { (t : ModelTree) → faults_in t ≡ [] → types_checked (named_of t) ≡ Ok tt → VariablesLieInTypes (named_of t) }
    ensures parameters { (m : NamedTree) → ParametersLieInTypes m }
    ensures values { (t : ModelTree) → faults_in t ≡ [] → types_checked (named_of t) ≡ Ok tt → LetNamesLieInTypes (named_of t) }
{}
