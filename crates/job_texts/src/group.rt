//! The key group of a key, and the subtask that owns it.

ghost use Rattle.std.specs.Prelude.{◌≡◌, ◌<◌, ◌≤◌, IfOk, IfSome, MatchResult, string_bytes};
ghost use Rattle.std.specs.Char.{is_ascii_digit};
ghost use Rattle.std.specs.List.{list_all};
ghost use Rattle.job_texts.specs.Group.{are_digits, number_said, group_number_said, without_hyphen, key_said, group_said, group_line, TellsGroup};
ghost use Rattle.job_texts.specs.Tells.{KeepsWriter};

use crate::fault::JobFault;
use crate::writing::write_text;
use key_groups::{MOST_GROUPS, MOST_SUBTASKS, MaxParallelism, Parallelism, group_of, owner_of};
use std::alloc::{AllocError, Global};
use std::io::Write;

fn is_all_digits(text: &[u8]) -> bool
    ensures { result ≡ list_all is_ascii_digit text.now }
{
    text.iter().all(|b| b.is_ascii_digit())
}

#[tactic(auto, unfolding(crate::specs::Group::are_digits))]
pub(crate) fn are_digits(text: &[u8], most: usize) -> bool
    ensures { result ≡ are_digits most text.now }
{
    !text.is_empty() && text.len() <= most && is_all_digits(text)
}

/// The number from `least` to `most` that a word of 1 to 5 digits spells.
pub fn read_count(text: &str, least: u32, most: u32) -> Option<u32>
    ensures said { result ≡ number_said 5 least most text.now }
    ensures within { IfSome result (λ count. (least ≤ count) × (count ≤ most)) }
{
    if !are_digits(text.as_bytes(), 5) {
        return None;
    }
    match text.parse::<u32>() {
        Ok(count) if least <= count && count <= most => Some(count),
        _ => None,
    }
}

/// The key group that a word of 1 to 5 digits spells, below the most that there are.
pub fn read_group(text: &str) -> Option<u32>
    ensures { result ≡ group_number_said text.now }
{
    read_count(text, 0, MOST_GROUPS - 1)
}

fn without_hyphen(text: &[u8]) -> &[u8]
    ensures { result.now ≡ without_hyphen text.now }
{
    match text {
        [b'-', digits @ ..] => digits,
        _ => text,
    }
}

/// The number of 64 bits that a word spells: a hyphen or none, and 1 to 19 digits.
pub fn read_key(text: &str) -> Option<i64>
    ensures { result ≡ key_said text.now }
{
    if !are_digits(without_hyphen(text.as_bytes()), 19) {
        return None;
    }
    text.parse::<i64>().ok()
}

fn line_of(alloc: Global, group: u32, owner: u32) -> Result<String, AllocError>
    ensures { IfOk result (λ line. string_bytes line ≡ group_line group owner) }
{
    format!(in alloc; "{group} {owner}\n")
}

/// Writes the group of a key and the subtask that owns it, as one line `GROUP OWNER`, for `max` key groups
/// and `par` subtasks.
///
/// The key is an optional hyphen and 1 to 19 digits within an `i64`; `max` and `par` are 1 to 5 digits,
/// from 1 to 32768 and from 1 to the lesser of 64 and `max`.
///
/// # Errors
///
/// `Number` where a text is no such number; `Write` where the writer refuses the line; `Memory`.
#[tactic(auto, unfolding(crate::specs::Group::group_said, crate::specs::Group::answer_line))]
pub fn job_group<W: Write>(
    alloc: Global,
    key: &str,
    max: &str,
    par: &str,
    out: &mut W,
) -> Result<(), JobFault>
    ensures answers { TellsGroup (group_said key.now max.now par.now) result (W.contents out.old) (W.contents out.new) }
    ensures kept { KeepsWriter result (W.contents out.old) (W.contents out.new) }
{
    let key = read_key(key).ok_or(JobFault::Number)?;
    let groups = read_count(max, 1, MOST_GROUPS).ok_or(JobFault::Number)?;
    let subtasks = read_count(par, 1, groups.min(MOST_SUBTASKS)).ok_or(JobFault::Number)?;
    let max = MaxParallelism::new(groups).ok_or(JobFault::Number)?;
    let par = Parallelism::new(subtasks, max).ok_or(JobFault::Number)?;
    let group = group_of(key, max);
    let line = line_of(alloc, group, owner_of(max, par, group))?;
    write_text(out, line.as_str())
}
