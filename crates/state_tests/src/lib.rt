//! Tests of the hashes of panes, of packed parts, of the entries and the bytes of savepoints, and of the codes of the
//! state's faults.
#![tactic(auto)]

#[cfg(test)]
mod chance;
#[cfg(test)]
mod entries;
#[cfg(test)]
mod hashes;
#[cfg(test)]
mod indexed;
#[cfg(test)]
mod packed;
#[cfg(test)]
mod savepoints;
#[cfg(test)]
mod windows;
