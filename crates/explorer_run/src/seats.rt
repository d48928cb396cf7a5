// Sessions in passes of their own: they are opened in order, and taken back.
ghost use Rattle.std.specs.Prelude.{◌≡◌, ◌+◌, ◌<◌, ◌≤◌, ◌^◌, [], Some, IfOk, OnOk, OnErr, length, All, vec_capacity};
ghost use Rattle.std.specs.List.{AllZip};
ghost use mathlib.Core.List.{IsPrefix};
ghost use Rattle.hub_turns.specs.Turned.{IsIdle};
ghost use Rattle.explorer_run.specs.Served.{IsServableScript, values_of};
ghost use Rattle.explorer_run.specs.Seats.{IsRoot, StaysRoot, HasOpened, IsReady, IsPlaced, IsOut, IsBack, IsInFront, EachSeat, counted_in};

use hub_lock::{Pass, Turns};
use hub_state::Hub;
use hub_turns::passes_stay_idle;
use session_rules::{SessionScript, Transcript};
use session_state::session_search::Session;
use session_turns::{StepCount, open_session};
use std::alloc::{AllocError, Global};
use std::sync::{Arc, Wait};
use translation::Translation;

/// A session with its pass, its transcript once it was served, and how many steps its searches have learnt. It can't be dropped: its
/// pass can't.
pub struct Seat {
    pub(crate) pass: Pass<Hub>,
    pub(crate) session: Session,
    pub(crate) transcript: Option<Transcript>,
    pub(crate) count: StepCount,
}

/// Opens a session for each script, in order, under the numbers that come next. After an error those that were opened before are
/// there.
pub(crate) fn open_all<R: Wait>(
    rt: &R,
    alloc: Global,
    lock: &Turns<Hub>,
    root: &mut Pass<Hub>,
    translations: &[Arc<Translation>],
    scripts: &[SessionScript],
    seats: &mut Vec<Seat>,
) -> Result<(), AllocError>
    requires root { IsRoot lock.now (values_of translations.now) root.old }
    requires none { seats.old.items ≡ [] }
    requires scripts { All (IsServableScript (length translations.now)) scripts.now }
    requires few { root.old.view.made + length scripts.now < 2 ^ 32 }
    requires room { length scripts.now ≤ vec_capacity seats.old }
    ensures root { StaysRoot lock.now (values_of translations.now) root.old root.new }
    ensures live { root.new.view.live ≡ root.old.view.live + length seats.new.items }
    ensures made { OnOk result ((root.new.view.made ≡ root.old.view.made + length scripts.now) × (length seats.new.items ≡ length scripts.now)) }
    ensures ready { EachSeat (λ k seat. IsReady lock.now (values_of translations.now) scripts.now k seat × IsPlaced root.old.view.base (root.old.view.made + 1) k seat) seats.new.items }
{
    for script in scripts {
        let (pass, session) = open_pass(
            rt,
            alloc,
            lock,
            root,
            translations,
            script.key,
            script.budget,
        )?;
        let count = StepCount::new();
        seats.push_reserved(Seat {
            pass,
            session,
            transcript: None,
            count,
        });
    }
    Ok(())
}

/// Splits a pass off, and opens a session in it. After an error the pass was taken back.
pub(crate) fn open_pass<R: Wait>(
    rt: &R,
    alloc: Global,
    lock: &Turns<Hub>,
    root: &mut Pass<Hub>,
    translations: &[Arc<Translation>],
    key: u32,
    budget: u32,
) -> Result<(Pass<Hub>, Session), AllocError>
    requires root { IsRoot lock.now (values_of translations.now) root.old }
    requires key { key < length translations.now }
    requires budget { budget ≤ 100000 }
    requires room { root.old.view.made < 4294967295 }
    ensures root { StaysRoot lock.now (values_of translations.now) root.old root.new }
    ensures made { OnOk result (root.new.view.made ≡ root.old.view.made + 1) }
    ensures live { OnOk result (root.new.view.live ≡ root.old.view.live + 1) }
    ensures opened { IfOk result (λ r. HasOpened lock.now (values_of translations.now) key budget root.old r.0 r.1) }
    ensures err { OnErr result (root.new.view.live ≡ root.old.view.live) }
{
    passes_stay_idle();
    let mut pass = lock.split(root);
    match open_session(rt, alloc, lock, &mut pass, key, budget) {
        Ok(session) => Ok((pass, session)),
        Err(error) => {
            lock.join(root, pass);
            Err(error)
        }
    }
}

/// Takes all passes back, adds up what was learnt, and answers the transcripts in order. The error comes where a session has none,
/// or for want of memory.
pub(crate) fn gather(
    alloc: Global,
    lock: &Turns<Hub>,
    root: &mut Pass<Hub>,
    mut seats: Vec<Seat>,
    count: &mut StepCount,
) -> Result<Vec<Transcript>, AllocError>
    requires root { IsIdle lock.now root.old × (root.old.view.number ≡ 0) }
    requires out { All (IsOut lock.now root.old.view.base) seats.items }
    ensures idle { IsIdle lock.now root.new }
    ensures number { root.new.view.number ≡ 0 }
    ensures base { root.new.view.base ≡ root.old.view.base }
    ensures own { root.new.view.own ≡ root.old.view.own }
    ensures made { root.new.view.made ≡ root.old.view.made }
    ensures live { root.new.view.live + length seats.items ≡ root.old.view.live }
    ensures seen { IsPrefix root.old.view.seen root.new.view.seen }
    ensures back { All (IsBack root.new.view.seen) seats.items }
    ensures spent { count.new ≤ count.old + counted_in seats.items }
    ensures transcripts { IfOk result (λ ts. AllZip (λ seat t. seat.transcript ≡ Some t) seats.items ts.items) }
{
    passes_stay_idle();
    let mut transcripts = Vec::with_capacity(alloc, seats.len());
    while let Some(seat) = seats.pop() {
        let Seat {
            pass,
            session: _,
            transcript,
            count: learnt,
        } = seat;
        lock.join(root, pass);
        count.add(learnt);
        transcripts = in_front(transcript, transcripts);
    }
    seats.destroy_empty();
    transcripts
}

// The transcript, and then the others.
fn in_front(
    transcript: Option<Transcript>,
    others: Result<Vec<Transcript>, AllocError>,
) -> Result<Vec<Transcript>, AllocError>
    ensures { IfOk result (λ ts. IsInFront transcript others ts) }
{
    let first = transcript.ok_or(AllocError)?;
    let mut transcripts = others?;
    transcripts.insert(0, first)?;
    Ok(transcripts)
}
