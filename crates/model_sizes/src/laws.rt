// Laws of the definitions: each is the contract of a function that does nothing.
ghost use Rattle.model_sizes.specs.Rows.{rows, AreTold};

/// The sizes under the first command of the texts in the table of rows.
pub fn rows_are_told()
    ensures { AreTold rows }
{}
