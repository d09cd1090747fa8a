//! Reads a savepoint and decodes or encodes it so many times, or reads one of its key groups: the program that
//! `bench/savepoint` measures.
#![tactic(auto)]

ghost use Rattle.std.specs.Prelude.{◌≡◌, IfOk};
ghost use Rattle.savepoint_bench.specs.Count as count;

use savepoint_codec::{SaveFault, SavedGroup};
use savepoint_index::{decode, decode_group, encode};
use std::alloc::{AllocError, Global};
use std::process::ExitCode;
use std::rt::{Env, Files};
use std::{env, fs, io};
use thiserror::Error;

/// Why there is nothing to measure.
#[derive(Debug, Drop, Error)]
enum Failure {
    /// The words are not `decode` or `encode`, a number and a path, or `group` with these and a key group.
    #[error("words: decode|encode TIMES SAVEPOINT, or group TIMES SAVEPOINT GROUP")]
    Words,
    #[error("{0}")]
    File(io::Error),
    #[error("{0}")]
    Save(SaveFault),
    #[error("memory")]
    Memory,
}

impl From<io::Error> for Failure {
    fn from(error: io::Error) -> Failure {
        Failure::File(error)
    }
}

impl From<SaveFault> for Failure {
    fn from(fault: SaveFault) -> Failure {
        Failure::Save(fault)
    }
}

impl From<AllocError> for Failure {
    fn from(_e: AllocError) -> Failure {
        Failure::Memory
    }
}

/// How many entries the key groups have together, as far as a `usize` can tell.
fn entry_count(groups: &[SavedGroup]) -> usize
    ensures { result ≡ count.entry_count groups.now }
{
    let mut count: usize = 0;
    for group in groups {
        count = count.saturating_add(group.entries.len());
    }
    count
}

/// Decodes the bytes so many times, and answers how many entries they have.
fn decoded(alloc: Global, times: u32, bytes: &[u8]) -> Result<usize, Failure>
    ensures { IfOk result (λ n. count.IsDecoded times bytes.now n) }
{
    let mut count = 0;
    for _ in 0..times {
        let savepoint = decode(alloc, bytes)?;
        count = entry_count(savepoint.contents().groups.as_slice());
    }
    Ok(count)
}

/// Decodes the bytes once and encodes them so many times, and answers how many they are then.
fn encoded(alloc: Global, times: u32, bytes: &[u8]) -> Result<usize, Failure>
    ensures { IfOk result (λ n. count.IsEncoded times bytes.now n) }
{
    let savepoint = decode(alloc, bytes)?;
    let mut length = 0;
    for _ in 0..times {
        length = encode(alloc, &savepoint)?.len();
    }
    Ok(length)
}

/// Reads the entries of a key group so many times, and answers how many there are.
fn grouped(alloc: Global, times: u32, bytes: &[u8], group: u32) -> Result<usize, Failure>
    ensures { IfOk result (λ n. count.IsGrouped times bytes.now group n) }
{
    let mut count = 0;
    for _ in 0..times {
        count = decode_group(alloc, bytes, group)?.len();
    }
    Ok(count)
}

fn number_of(word: Option<&String>) -> Result<u32, Failure> {
    let Some(word) = word else {
        return Err(Failure::Words);
    };
    match word.as_str().parse::<u32>() {
        Ok(number) => Ok(number),
        Err(_) => Err(Failure::Words),
    }
}

fn answer<R: Files + Env + AllocGlobal>(rt: &R) -> Result<usize, Failure> {
    let words: Vec<String> = env::args(rt)?.collect::<Vec<String>>(rt.alloc())?;
    let mut words = words.iter().skip(1);
    let (Some(mode), Some(times), Some(path)) = (words.next(), words.next(), words.next()) else {
        return Err(Failure::Words);
    };
    let times = number_of(Some(times))?;
    let bytes = fs::read(rt, path.as_str())?;
    match mode.as_str() {
        "decode" => decoded(rt.alloc(), times, &bytes),
        "encode" => encoded(rt.alloc(), times, &bytes),
        "group" => grouped(rt.alloc(), times, &bytes, number_of(words.next())?),
        _ => Err(Failure::Words),
    }
}

fn main(rt: HostRuntime) -> ExitCode {
    match answer(&rt) {
        Ok(count) => {
            let _ = println!(rt; "{count}");
            ExitCode::from(0)
        }
        Err(failure) => {
            let _ = eprintln!(rt; "{failure}");
            ExitCode::from(2)
        }
    }
}
