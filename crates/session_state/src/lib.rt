//! A session: what it keeps from one step to the next, and what it proposes for each step by searches, with what stands
//! behind that. The modules have the state that is kept, what names of tuples stand for, the rounds of searches for the
//! next scenario, and the session itself.
#![tactic(auto)]

pub mod search_rounds;
pub mod session_search;
pub mod session_store;
pub mod tuple_names;
