//! Tests of whole jobs, of what no command of the program shows.
#![tactic(auto)]

#[cfg(test)]
mod gates;
#[cfg(test)]
mod jobs;
#[cfg(test)]
mod layouts;
#[cfg(test)]
mod leaving;
#[cfg(test)]
mod meeting;
#[cfg(test)]
mod premises;
#[cfg(test)]
mod readers;
#[cfg(test)]
mod writers;
