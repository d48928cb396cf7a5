// Laws of the definitions: each is the contract of a function that does nothing.
ghost use Rattle.std.specs.Prelude.{◌≡◌, Option};
ghost use Rattle.named_model.specs.Model.{CalleeTree};
ghost use Rattle.model_types.specs.Typing.{Declared};
ghost use Rattle.model_types.specs.Models.{header_of, callee_settled, run_checked};
ghost use Rattle.alloy_types.specs.Headers.Bodies.{body_of};
ghost use Rattle.alloy_types.specs.Declarations.Same.{IsSameHeader, AreSameDeclared};

/// A predicate or a function has the same header.
pub fn headers_are_the_same()
    ensures { (d e : Declared) → AreSameDeclared d e → (c : CalleeTree) → IsSameHeader (header_of d c) (header_of e c) }
{}

/// A function has the same body in which no name is shared, where its body has no fault.
pub fn bodies_are_the_same()
    ensures { (d e : Declared) → AreSameDeclared d e → (c : CalleeTree) → body_of d c ≡ body_of e c }
{}

/// A predicate or a function is settled alike.
pub fn callees_are_settled_alike()
    ensures { (d e : Declared) → AreSameDeclared d e → (c : CalleeTree) → callee_settled d c ≡ callee_settled e c }
{}

/// A predicate that is run has unary parameters under both, or the same first one that isn't.
pub fn runs_are_checked_alike()
    ensures { (d e : Declared) → AreSameDeclared d e → (o : Option CalleeTree) → run_checked d o ≡ run_checked e o }
{}
