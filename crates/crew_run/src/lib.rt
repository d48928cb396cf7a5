//! Several workers on one enumeration. Each searches with all that the crew has found so far blocked, and writes what it comes to
//! in one journal, in turns of a lock; the answer is read off the journal, and is the same list for every number of workers.
#![tactic(auto)]

mod answer;
mod event;
mod in_turn;
mod journal;
mod leaning;
mod reading;
mod round;
mod turns;
mod work;
mod workers;
mod writing;

pub use crate::answer::CrewAnswer;
pub use crate::event::{CrewEntry, CrewEvent};
pub use crate::workers::{crew, crew_up_to};
