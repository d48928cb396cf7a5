// Laws of the definitions: each is the contract of a function that does nothing.
ghost use Rattle.overload_resolution.specs.Settling.Laws.{PartsAreSettledAlike, DomainsAreSettledAlike, OperandsAreSettledInOrder, StepsAreSettledInOrder, ArgumentsAreSettledInOrder, ValuesAreSettledInOrder, DomainsAreSettledInOrder};

/// Parts are settled alike over local names of the same arities, where types and signatures are the same as far as a shared
/// name in the part asks for them: without one, no type matters.
pub fn parts_are_settled_alike()
    ensures { PartsAreSettledAlike }
{}

/// So are domains, and what they enter is alike.
pub fn domains_are_settled_alike()
    ensures { DomainsAreSettledAlike }
{}

/// The operands of a chain are settled one after the other, each behind the type of those before.
pub fn operands_are_settled_in_order()
    ensures { OperandsAreSettledInOrder }
{}

/// So are the steps of a path.
pub fn steps_are_settled_in_order()
    ensures { StepsAreSettledInOrder }
{}

/// So are arguments.
pub fn arguments_are_settled_in_order()
    ensures { ArgumentsAreSettledInOrder }
{}

/// So are the values of a `let`, each of which those behind it see.
pub fn values_are_settled_in_order()
    ensures { ValuesAreSettledInOrder }
{}

/// So are domains, the variables of which those behind them see.
pub fn domains_are_settled_in_order()
    ensures { DomainsAreSettledInOrder }
{}
