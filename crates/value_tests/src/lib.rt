//! Tests of values: batches, accumulators, numbers of rows, tokens of JSON, key groups and kernels; and of what an
//! import takes from a field: decimals, instants, numbers of the calendar, and fields that are asked for.
#![tactic(auto)]

#[cfg(test)]
mod accumulators;
#[cfg(test)]
mod asked;
#[cfg(test)]
mod batches;
#[cfg(test)]
mod calendars;
#[cfg(test)]
mod decimals;
#[cfg(test)]
mod digits;
#[cfg(test)]
mod groups;
#[cfg(test)]
mod instants;
#[cfg(test)]
mod kernels;
#[cfg(test)]
mod numbers;
#[cfg(test)]
mod tokens;
