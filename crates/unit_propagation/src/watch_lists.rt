//! For each number of a literal, the watched places that have it, linked through the places themselves.

mod lists;

pub use crate::watch_lists::lists::WatchLists;
