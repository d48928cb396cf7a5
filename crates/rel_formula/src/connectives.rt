// What formulas are put together by.

/// What stands between two expressions of one arity.
#[derive(Clone, Copy)]
pub enum Comparison {
    /// Each tuple of the first set is in the second.
    In,
    Equal,
}

/// What stands between formulas.
#[derive(Clone, Copy)]
pub enum Connective {
    And,
    Or,
}

/// For how many atoms of a set a formula is true.
#[derive(Clone, Copy)]
pub enum Quantifier {
    All,
    /// At least one.
    Exists,
    /// At most one.
    Lone,
}
