//! What is said of a call.

use job_texts::JobFault;
use std::fmt::Display;

/// A call is made next.
pub(crate) fn begins(rt: &impl Print, name: &str) -> Result<(), JobFault> {
    println!(rt; "{name} begins").map_err(|_| JobFault::Write)
}

/// The call was refused.
pub(crate) fn refused<F: Display>(rt: &impl Print, fault: &F) -> Result<(), JobFault> {
    println!(rt; "refused {fault}").map_err(|_| JobFault::Write)
}

/// What the refusal is to leave, and whether it has.
pub(crate) fn left(rt: &impl Print, what: &str, is_so: bool) -> Result<(), JobFault> {
    let before = if is_so { "" } else { "not so: " };
    println!(rt; "{before}{what}").map_err(|_| JobFault::Write)
}

/// The call has answered.
pub(crate) fn answered(rt: &impl Print, text: &str) -> Result<(), JobFault> {
    println!(rt; "answered\n{text}").map_err(|_| JobFault::Write)
}
