//! Tests of what sessions share: the pool of clauses, its journal, the lock, and the hub itself.
#![tactic(auto)]

#[cfg(test)]
mod of_clause_pool;
#[cfg(test)]
mod of_crew_run;
#[cfg(test)]
mod of_explorer_run;
#[cfg(test)]
mod of_hub_lock;
#[cfg(test)]
mod of_hub_state;
#[cfg(test)]
mod of_hub_turns;
#[cfg(test)]
mod of_journal_rules;
#[cfg(test)]
mod of_session_turns;
#[cfg(test)]
mod of_whole_sessions;
