//! The parts of an input, as an operator's subtasks would get its records: each key's records stand in one part, and
//! all watermarks of the input's partitions in every part.
//!
//! `specs/Parts` says what a part is, and `laws` that a job over the whole input comes to the rows of jobs over the
//! parts.
#![tactic(auto)]

pub mod laws;
