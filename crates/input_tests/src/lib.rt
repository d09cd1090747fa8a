//! Tests of inputs and plans: which texts are read token by token, the codes of faults, the bounds of watermarks, and
//! the slices of windows; and of what `check` does where nothing can be written, and says of savepoints that no job
//! left.
#![tactic(auto)]

#[cfg(test)]
mod checks;
#[cfg(test)]
mod inputs;
#[cfg(test)]
mod made;
#[cfg(test)]
mod plans;
#[cfg(test)]
mod refused;
#[cfg(test)]
mod restarts;
#[cfg(test)]
mod slices;
