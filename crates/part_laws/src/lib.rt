//! Rows of the parts of an input, merged: a law above what a part is (`input_parts`), what a text of rows is
//! (`job_texts`) and what a merge of texts writes (`row_merges`).
//!
//! `specs/Laws` says it, and `laws` is its proof.
#![tactic(auto)]

pub mod laws;
