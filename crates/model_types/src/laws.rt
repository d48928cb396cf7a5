// Laws of the definitions: each is the contract of a function that does nothing.
ghost use Rattle.model_types.specs.Rows.{rows, AreTold};

/// What is told of the sorts and arities of the texts in the table of rows.
pub fn rows_are_told()
    ensures { AreTold rows }
{}
