// Laws of the definitions: each is the contract of a function that does nothing.
ghost use Rattle.named_model.specs.Rows.{rows, AreTold};

/// What is told of the names of the texts in the table of rows.
pub fn rows_are_told()
    ensures { AreTold rows }
{}
