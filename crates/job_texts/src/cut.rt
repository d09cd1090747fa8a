//! A cut as a word of the command line spells it.

ghost use Rattle.std.specs.Prelude.{◌≡◌, ◌==◌, ◌<◌, IfOk, map};
ghost use Rattle.std.specs.List.{slice_split};
ghost use Rattle.job_texts.specs.Cut.{word_count, source_said, cut_said, cuts_said, each_said, TellsCut};

use crate::fault::JobFault;
use crate::group::are_digits;
use legs::Cut;
use plain_data::Items;
use std::alloc::{AllocError, Global};

/// 1 to 20 digits of a number of 64 bits.
fn count_of(text: &str) -> Option<u64>
    ensures { result ≡ word_count text.now }
{
    if !are_digits(text.as_bytes(), 20) {
        return None;
    }
    text.parse::<u64>().ok()
}

/// The parts of a text between separators.
fn parts_of<'t>(alloc: Global, text: &'t str, separator: char) -> Result<Vec<&'t str>, AllocError>
    requires { separator < 128 }
    ensures { IfOk result (λ parts. map (λ part. part.now) parts.items ≡ slice_split (λ b. b == separator) text.now) }
{
    text.split(separator).collect(alloc)
}

fn counts_in(alloc: Global, words: &[&str]) -> Result<Vec<u64>, JobFault>
    ensures { TellsCut (λ counts. counts.items) result (each_said word_count (map (λ word. word.now) words.now)) }
{
    let mut counts = Vec::new(alloc);
    for word in words {
        counts.push(count_of(word).ok_or(JobFault::Cut)?)?;
    }
    Ok(counts)
}

/// The counts of one source, with commas between them.
#[tactic(auto, unfolding(crate::specs::Cut::source_said))]
fn source_of(alloc: Global, text: &str) -> Result<Items<u64>, JobFault>
    ensures { TellsCut (λ counts. counts) result (source_said text.now) }
{
    let words = parts_of(alloc, text, ',')?;
    Ok(Items::from_vec(counts_in(alloc, words.as_slice())?))
}

fn sources_in(alloc: Global, words: &[&str]) -> Result<Vec<Items<u64>>, JobFault>
    ensures { TellsCut (λ sources. sources.items) result (each_said source_said (map (λ word. word.now) words.now)) }
{
    let mut sources = Vec::new(alloc);
    for word in words {
        sources.push(source_of(alloc, word)?)?;
    }
    Ok(sources)
}

/// The cut that a word spells, as `2,2/5`: for each source in plan order the counts of its partitions, with commas
/// between counts and a `/` between sources. A count is 1 to 20 decimal digits of a number below 2^64. Whether an input
/// has such a cut is judged where a leg is to stop there.
///
/// # Errors
///
/// [`JobFault::Cut`] where the word spells none; `Memory`.
#[tactic(auto, unfolding(crate::specs::Cut::cut_said))]
pub fn read_cut(alloc: Global, word: &str) -> Result<Cut, JobFault>
    ensures { TellsCut (λ cut. cut) result (cut_said word.now) }
{
    let words = parts_of(alloc, word, '/')?;
    let counts = Items::from_vec(sources_in(alloc, words.as_slice())?);
    Ok(Cut { counts })
}

fn cuts_in(alloc: Global, words: &[&str]) -> Result<Vec<Cut>, JobFault>
    ensures { TellsCut (λ cuts. cuts.items) result (each_said cut_said (map (λ word. word.now) words.now)) }
{
    let mut cuts = Vec::new(alloc);
    for word in words {
        cuts.push(read_cut(alloc, word)?)?;
    }
    Ok(cuts)
}

/// The cuts that a word spells, as `2,2/5+3,2/7`: at least one, with a `+` between them, each as [`read_cut`] reads it.
/// Whether a leg can take its savepoints there is judged where it begins.
///
/// # Errors
///
/// [`JobFault::Cut`] where the word spells none; `Memory`.
#[tactic(auto, unfolding(crate::specs::Cut::cuts_said))]
pub fn read_cuts(alloc: Global, word: &str) -> Result<Items<Cut>, JobFault>
    ensures { TellsCut (λ cuts. cuts) result (cuts_said word.now) }
{
    let words = parts_of(alloc, word, '+')?;
    Ok(Items::from_vec(cuts_in(alloc, words.as_slice())?))
}
