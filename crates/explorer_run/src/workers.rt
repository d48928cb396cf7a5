// Sessions side by side, each served by one of several workers.
ghost use Rattle.std.specs.Prelude.{◌≡◌, ◌+◌, ◌≤◌, ◌<◌, ◌^◌, ℕ, List, [], Option, Some, IfOk, OnOk, length, All, vec_capacity};
ghost use Rattle.rel_formula.specs.Bounds.{Bounded};
ghost use Rattle.explorer_run.specs.Served.{IsServableScript, AreServedFrom, allowed_in, values_of};
ghost use Rattle.explorer_run.specs.Seats.{IsRoot, StaysRoot, IsReady, IsPlaced, IsEnded, IsOut, EachSeat, counted_in};

use crate::seats::{Seat, gather, open_all};
use hub_lock::{Gate, Pass, Turns};
use hub_state::Hub;
use hub_turns::journal_laws::what_a_session_did_stays;
use session_rules::{SessionScript, Transcript};
use session_turns::{StepCount, serve_session};
use std::alloc::{AllocError, Global};
use std::sync::{Arc, Wait};
use std::thread::{self, Threads};
use translation::Translation;

/// Opens the sessions of the scripts, serves them, and takes their passes back, also after an error. Each session counts the steps
/// that its searches learn, and these counts are added up.
pub(crate) fn serve_all<R: Threads + Wait + Sync, G: Gate + Sync>(
    rt: &R,
    alloc: Global,
    lock: &Turns<Hub>,
    gate: &G,
    root: &mut Pass<Hub>,
    translations: &[Arc<Translation>],
    scripts: &[SessionScript],
    workers: u32,
    count: &mut StepCount,
) -> Result<Vec<Transcript>, AllocError>
    requires workers { (1 ≤ workers) × (workers ≤ 16) }
    requires root { IsRoot lock.now (values_of translations.now) root.old }
    requires few { root.old.view.made + length scripts.now < 2 ^ 32 }
    requires scripts { All (IsServableScript (length translations.now)) scripts.now }
    ensures root { StaysRoot lock.now (values_of translations.now) root.old root.new }
    ensures live { root.new.view.live ≡ root.old.view.live }
    ensures made { OnOk result (root.new.view.made ≡ root.old.view.made + length scripts.now) }
    ensures spent { count.new ≤ count.old + allowed_in scripts.now }
    ensures told { (problems : List Bounded) → root.old.view.base ≡ Some problems
        → IfOk result (λ ts. AreServedFrom problems root.new.view.seen (values_of translations.now) (root.old.view.made + 1) scripts.now ts.items) }
{
    what_a_session_did_stays();
    let mut seats = Vec::with_capacity(alloc, scripts.len())?;
    let ended = open_and_serve(
        rt,
        alloc,
        lock,
        gate,
        root,
        translations,
        scripts,
        workers,
        &mut seats,
    );
    let transcripts = gather(alloc, lock, root, seats, count);
    ended?;
    transcripts
}

// Opens the sessions, and serves them.
fn open_and_serve<R: Threads + Wait + Sync, G: Gate + Sync>(
    rt: &R,
    alloc: Global,
    lock: &Turns<Hub>,
    gate: &G,
    root: &mut Pass<Hub>,
    translations: &[Arc<Translation>],
    scripts: &[SessionScript],
    workers: u32,
    seats: &mut Vec<Seat>,
) -> Result<(), AllocError>
    requires workers { (1 ≤ workers) × (workers ≤ 16) }
    requires root { IsRoot lock.now (values_of translations.now) root.old }
    requires none { seats.old.items ≡ [] }
    requires scripts { All (IsServableScript (length translations.now)) scripts.now }
    requires few { root.old.view.made + length scripts.now < 2 ^ 32 }
    requires room { length scripts.now ≤ vec_capacity seats.old }
    ensures root { StaysRoot lock.now (values_of translations.now) root.old root.new }
    ensures live { root.new.view.live ≡ root.old.view.live + length seats.new.items }
    ensures out { All (IsOut lock.now root.old.view.base) seats.new.items }
    ensures counted { counted_in seats.new.items ≤ allowed_in scripts.now }
    ensures made { OnOk result ((root.new.view.made ≡ root.old.view.made + length scripts.now) × (length seats.new.items ≡ length scripts.now)) }
    ensures ended { OnOk result (EachSeat (λ k seat. IsEnded lock.now root.old.view.base (root.old.view.made + 1 + k) (values_of translations.now) scripts.now k seat) seats.new.items) }
{
    open_all(rt, alloc, lock, root, translations, scripts, seats)?;
    serve_seats(
        rt,
        alloc,
        lock,
        gate,
        translations,
        scripts,
        workers,
        seats.as_mut_slice(),
    );
    Ok(())
}

// Serves the sessions of all seats, each by one of so many workers.
fn serve_seats<R: Threads + Wait + Sync, G: Gate + Sync>(
    rt: &R,
    alloc: Global,
    lock: &Turns<Hub>,
    gate: &G,
    translations: &[Arc<Translation>],
    scripts: &[SessionScript],
    workers: u32,
    seats: &mut [Seat],
)
    requires workers { (1 ≤ workers) × (workers ≤ 16) }
    requires scripts { All (IsServableScript (length translations.now)) scripts.now }
    requires few { length scripts.now < 2 ^ 32 }
    requires ready { EachSeat (IsReady lock.now (values_of translations.now) scripts.now) seats.old }
    ensures count { length seats.new ≡ length seats.old }
    ensures ended { (base : Option (List Bounded)) (first : ℕ) → EachSeat (IsPlaced base first) seats.old
        → EachSeat (λ k seat. IsEnded lock.now base (first + k) (values_of translations.now) scripts.now k seat) seats.new }
{
    thread::for_each_mut(
        rt,
        seats,
        workers as usize,
        &|place, seat: &mut Seat|
            requires { All (IsServableScript (length translations.now)) scripts.now × (length scripts.now < 2 ^ 32) × IsReady lock.now (values_of translations.now) scripts.now place seat.now }
            ensures { IsEnded lock.entry.now seat.entry.now.pass.view.base seat.entry.now.pass.view.number (values_of translations.entry.now) scripts.entry.now place seat.exit.now }
        { serve_seat(rt, alloc, lock, gate, translations, scripts, place, seat) },
    );
}

// Serves the session at this place.
fn serve_seat<R: Wait, G: Gate>(
    rt: &R,
    alloc: Global,
    lock: &Turns<Hub>,
    gate: &G,
    translations: &[Arc<Translation>],
    scripts: &[SessionScript],
    place: usize,
    seat: &mut Seat,
)
    requires scripts { All (IsServableScript (length translations.now)) scripts.now }
    requires few { length scripts.now < 2 ^ 32 }
    requires ready { IsReady lock.now (values_of translations.now) scripts.now place seat.old }
    ensures { IsEnded lock.now seat.old.pass.view.base seat.old.pass.view.number (values_of translations.now) scripts.now place seat.new }
{
    let script = &scripts[place];
    let served = serve_session(
        rt,
        alloc,
        lock,
        gate,
        place as u32,
        &mut seat.pass,
        &mut seat.session,
        &translations[script.key as usize],
        script.commands.commands(),
        &mut seat.count,
    );
    seat.transcript = served.ok();
}
