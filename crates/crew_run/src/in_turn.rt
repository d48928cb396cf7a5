// What a turn does to the journal that it holds.
ghost use Rattle.std.specs.Prelude.{◌≡◌, ◌≢◌, ◌≤◌, take, drop, length, All, OnOk};
ghost use Rattle.crew_run.specs.Crew.{MayFollow};
ghost use Rattle.crew_run.specs.Passing.{HasRead, HasReadAll, IsJournalOf, Leaves};

use crate::event::CrewEvent;
use crate::journal::CrewJournal;
use crate::reading::Reading;
use crate::writing::write;
use hub_lock::Held;
use std::alloc::{AllocError, Global};

/// Reads on in the journal, and says whether more can be written.
pub(crate) fn read_held(
    alloc: Global,
    held: &Held<CrewJournal>,
    reading: &mut Reading,
) -> Result<bool, AllocError>
    requires { HasRead held.now.value.entries reading.old }
    ensures legal { IsJournalOf held.now.value.task held.now.value.entries }
    ensures read { OnOk result (HasReadAll held.now.value.entries reading.new) }
{
    let journal = held.get();
    reading.go_on(alloc, journal.entries())?;
    Ok(!journal.is_full() && journal.end().is_none())
}

/// Writes down an event which may follow the first entries, so many, behind which none is under this number.
pub(crate) fn write_held(
    held: &mut Held<CrewJournal>,
    by: u32,
    read: usize,
    event: CrewEvent,
) -> Result<(), AllocError>
    requires read { read ≤ length held.old.value.entries }
    requires others { All (λ e. e.by ≢ by) (drop read held.old.value.entries) }
    requires may { MayFollow held.old.value.task.translation held.old.value.task.budget (take read held.old.value.entries) by event }
    ensures pass { held.new.pass ≡ held.old.pass }
    ensures leaves { Leaves by held.old.value held.new.value }
{
    write(held.get_mut(), by, read, event)
}
