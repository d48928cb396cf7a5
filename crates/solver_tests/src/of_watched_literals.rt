// Marks.
ghost use Rattle.std.specs.Prelude.{◌≡◌, ◌<◌, IfOk, length};

use std::alloc::Global;
use std::test::Fail;
use unit_propagation::watched_literals::Pending;

// Clauses of which those are marked where the row says so.
fn marked(alloc: Global, row: &[bool]) -> Result<Pending, Fail>
    requires { length row.now < 100 }
    ensures { IfOk result (λ p. length p.flags ≡ length row.now) }
{
    let mut pending = Pending::new(alloc);
    for is_marked in row {
        pending.push(*is_marked)?;
    }
    Ok(pending)
}

#[test]
fn marks_are_listed_once(rt: HostRuntime) -> Result<(), Fail> {
    let mut pending = marked(rt.alloc(), &[false, true, false])?;
    assert_eq!(rt; pending.list(), [1].as_slice());
    pending.mark(2);
    pending.mark(1);
    assert_eq!(rt; pending.list(), [1, 2].as_slice());
    Ok(())
}

#[test]
fn a_mark_is_taken_away(rt: HostRuntime) -> Result<(), Fail> {
    let mut pending = marked(rt.alloc(), &[true, true, true])?;
    assert!(rt; pending.list().len() > 0);
    assert_eq!(rt; pending.unmark(0), 0);
    assert_eq!(rt; pending.list(), [2, 1].as_slice());
    Ok(())
}

#[test]
fn a_copy_has_the_same_marks(rt: HostRuntime) -> Result<(), Fail> {
    let pending = marked(rt.alloc(), &[false, true])?;
    let mut copy = pending.copy(rt.alloc())?;
    copy.mark(0);
    assert_eq!(rt; pending.list(), [1].as_slice());
    assert_eq!(rt; copy.list(), [1, 0].as_slice());
    Ok(())
}
