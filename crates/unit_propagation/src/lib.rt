//! Propagation by two watched literals a clause: what became false is followed through the clauses that watch it.
//! The modules have this and what it works on: the clauses, the watched places, the literals that are true; and the
//! order in which variables are decided.
#![tactic(auto)]

pub mod activity_order;
pub mod assignment_trail;
pub mod clause_store;
pub mod watch_lists;
pub mod watched_literals;
