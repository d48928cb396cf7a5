//! Sessions beside their definition: to random lists of commands they answer what the session machine may, as trying all sets of
//! cells of small problems finds it.
#![tactic(auto)]

#[cfg(test)]
mod asks;
#[cfg(test)]
mod judge;
#[cfg(test)]
mod kinds;
#[cfg(test)]
mod of_judge;
#[cfg(test)]
mod of_sessions;
#[cfg(test)]
mod proofs_of_ends;
#[cfg(test)]
mod serving;
