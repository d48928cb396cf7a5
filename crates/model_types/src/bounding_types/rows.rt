// Single lists.
ghost use Rattle.std.specs.Prelude.{◌≡◌, ◌++◌, ◌-◌, IfOk, length, take, drop, bytes_eq};
ghost use Rattle.model_types.specs.Bounding.{start_of, end_of};

use std::alloc::{AllocError, Global};

// The first signature of a list, as a list of one.
#[tactic(auto, using(crate::proofs::Bounds::ListEnds::start_by_length))]
pub fn start_of(list: &[usize]) -> &[usize]
    ensures { result.now ≡ start_of list.now }
{
    &list[..list.len().min(1)]
}

// The last signature of a list, as a list of one.
pub fn end_of(list: &[usize]) -> &[usize]
    ensures { result.now ≡ end_of list.now }
{
    &list[list.len().saturating_sub(1)..]
}

// A list without its last signature.
fn front(list: &[usize]) -> &[usize]
    ensures { result.now ≡ take (length list.now - 1) list.now }
{
    &list[..list.len().saturating_sub(1)]
}

// A list without its first signature.
#[tactic(auto, using(crate::proofs::Bounds::ListEnds::rest_by_length))]
fn rest(list: &[usize]) -> &[usize]
    ensures { result.now ≡ drop 1 list.now }
{
    &list[list.len().min(1)..]
}

// Whether the one list ends with the signature with which the other starts.
pub fn meets(left: &[usize], right: &[usize]) -> bool
    ensures { result ≡ bytes_eq (end_of left.now) (start_of right.now) }
{
    end_of(left) == start_of(right)
}

// One list behind another.
pub fn appended(alloc: Global, left: &[usize], right: &[usize]) -> Result<Vec<usize>, AllocError>
    ensures { IfOk result (λ list. list.items ≡ left.now ++ right.now) }
{
    let mut list = Vec::from_slice(alloc, left)?;
    list.extend_from_slice(right)?;
    Ok(list)
}

// One list behind another, without the signatures between them.
pub fn joined(alloc: Global, left: &[usize], right: &[usize]) -> Result<Vec<usize>, AllocError>
    ensures { IfOk result (λ list. list.items ≡ take (length left.now - 1) left.now ++ drop 1 right.now) }
{
    appended(alloc, front(left), rest(right))
}
