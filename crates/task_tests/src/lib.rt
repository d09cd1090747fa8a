//! Tests of the worlds that tasks make up.
#![tactic(auto)]

#[cfg(test)]
mod choosing;
#[cfg(test)]
mod following;
#[cfg(test)]
mod making;
#[cfg(test)]
mod saves;
#[cfg(test)]
mod sharing;
#[cfg(test)]
mod worlds;
