// Turns of a worker's pass.
ghost use Rattle.std.specs.Prelude.{◌≡◌, ℕ, Some, length, IfOk, OnOk, IsTrue};
ghost use Rattle.hub_lock.specs.Passes.{of_pass};
ghost use Rattle.crew_run.specs.declared.journal.CrewTask.{CrewTask as TaskType};
ghost use Rattle.crew_run.specs.Crew.{MayFollow};
ghost use Rattle.crew_run.specs.Passing.{HasRead, HasReadAll, IsIdle, WentOn};

use crate::event::CrewEvent;
use crate::in_turn::{read_held, write_held};
use crate::journal::CrewJournal;
use crate::reading::Reading;
use hub_lock::{Pass, Turns};
use std::alloc::{AllocError, Global};
use std::sync::Wait;

/// Reads on in one turn, and says whether more can be written.
pub(crate) fn read_on<R: Wait>(
    rt: &R,
    alloc: Global,
    lock: &Turns<CrewJournal>,
    pass: &mut Pass<CrewJournal>,
    reading: &mut Reading,
) -> Result<bool, AllocError>
    requires idle { IsIdle lock.now pass.old }
    requires reading { HasRead pass.old.view.seen reading.old }
    ensures goes { WentOn lock.now pass.old pass.new }
    ensures read { OnOk result (HasReadAll pass.new.view.seen reading.new) }
{
    let held = lock.take(rt, pass);
    let open = read_held(alloc, &held, reading);
    lock.give(pass, held);
    open
}

/// Adds an event in one turn, which may follow all that the pass has read; but not where the journal has ended or has no room by now,
/// or tells the same already.
pub(crate) fn write_down<R: Wait>(
    rt: &R,
    lock: &Turns<CrewJournal>,
    pass: &mut Pass<CrewJournal>,
    read: usize,
    event: CrewEvent,
) -> Result<(), AllocError>
    requires idle { IsIdle lock.now pass.old }
    requires own { of_pass (λ e. e.by) pass.old.view.number pass.old.view.seen ≡ pass.old.view.own }
    requires read { read ≡ length pass.old.view.seen }
    requires may { (task : TaskType) → pass.old.view.base ≡ Some task → MayFollow task.translation task.budget pass.old.view.seen pass.old.view.number event }
    ensures { WentOn lock.now pass.old pass.new }
{
    let by = pass.number();
    let mut held = lock.take(rt, pass);
    let added = write_held(&mut held, by, read, event);
    lock.give(pass, held);
    added
}
