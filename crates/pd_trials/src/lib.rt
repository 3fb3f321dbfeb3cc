//! Tests of the crates below, which have none of their own: a crate with tests is proved twice, and this one has
//! nothing else to prove.
//!
//! They show what no clause says: what real readers, writers and folders do behind the adapters of `pd_io`
//! (`streams`, `folders`), and that calls succeed with ample memory which no program makes yet (`known`, `waiting`,
//! `later`). What programs do make is shown by the table of `pd_cases`.
#![tactic(auto)]

#[cfg(test)]
mod folders;
#[cfg(test)]
mod known;
#[cfg(test)]
mod later;
#[cfg(test)]
mod streams;
#[cfg(test)]
mod waiting;
