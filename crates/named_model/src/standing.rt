// What a name in a body stands for.

/// What a name in a body stands for. Signatures, fields, and predicates with functions are numbered from 0 in order of
/// declaration; local names are counted outward from 0.
#[derive(Clone, Copy)]
pub enum Standing {
    Local(usize),
    Signature(usize),
    Field(usize),
    /// Several fields of one name, the first of which has this number.
    Shared(usize),
    /// A predicate or a function.
    Callee(usize),
    Nothing,
}
