//! Tests of legs on threads, of the rings between their tasks, and of what wires and settles those.
#![tactic(auto)]

#[cfg(test)]
mod asking;
#[cfg(test)]
mod gates;
#[cfg(test)]
mod making;
#[cfg(test)]
mod orders;
#[cfg(test)]
mod rings;
#[cfg(test)]
mod wiring;
