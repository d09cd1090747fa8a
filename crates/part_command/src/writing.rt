//! The files of the parts of an input, and what is written to them.

ghost use Rattle.std.specs.Prelude.{◌≡◌, ◌≤◌, Ok, length, string_bytes, IfErr, IfOk};
ghost use Rattle.new_files.specs.Streams.{stream_contents};
ghost use Rattle.stream_model.specs.InputData.{BelongsTo};
ghost use Rattle.input_parts.specs.Parts.{part_of_input};
ghost use Rattle.part_texts.specs.InputTexts.{input_text};
ghost use Rattle.part_command.specs.Apart.{path_of_part};
ghost use Rattle.part_command.specs.Splitting.{IsUnwritten};
ghost use Rattle.part_command.specs.Writing.{AreOpened, HaveTexts};

use command_files::write_fault;
use job_texts::JobFault;
use key_groups::Parallelism;
use new_files::{NewFile, NewStream};
use part_texts::{PartText, write_texts};
use plan_model::Plan;
use std::alloc::{AllocError, Global};
use std::io;
use std::random::RandomSource;
use std::rt::Files;
use stream_model::Input;

/// The path of the part at a place.
pub(crate) fn path_of(alloc: Global, out: &str, place: usize) -> Result<String, AllocError>
    ensures { IfOk result (λ path. string_bytes path ≡ path_of_part out.now place) }
{
    format!(in alloc; "{out}.{place}")
}

/// What comes of writing, with the fault of a command.
fn written<T>(answer: io::Result<T>) -> Result<T, JobFault>
    ensures ok { IfOk result (λ value. answer ≡ Ok value) }
    ensures fault { IfErr result IsUnwritten }
{
    match answer {
        Ok(value) => Ok(value),
        Err(error) => Err(write_fault(&error)),
    }
}

/// A new file for each part, for the place of the one at its path.
pub(crate) fn files_at<R: Files + RandomSource + AllocGlobal>(
    rt: &R,
    out: &str,
    parts: Parallelism,
) -> Result<Vec<NewFile>, JobFault>
    ensures all { IfOk result (λ files. length files.items ≡ parts) }
    ensures fault { IfErr result IsUnwritten }
{
    let mut files = Vec::new(rt.alloc());
    for place in 0..parts.get() as usize {
        let path = path_of(rt.alloc(), out, place)?;
        files.push(written(NewFile::at(rt, path.as_str()))?)?;
    }
    Ok(files)
}

/// Opens each file, for the text of the part at its place.
fn open_all<'r, R: Files + Print + AllocGlobal>(
    rt: &'r R,
    files: &[NewFile],
) -> Result<Vec<PartText<NewStream<'r, R>>>, JobFault>
    ensures opened { IfOk result (λ texts. AreOpened (length files.now) texts.items) }
    ensures fault { IfErr result IsUnwritten }
{
    let mut texts = Vec::new(rt.alloc());
    for file in files {
        let stream = written(file.open(rt))?;
        texts.push(written(PartText::new(rt.alloc(), stream))?)?;
    }
    Ok(texts)
}

/// Opens the files of all parts, and writes to each the text of its part.
fn write_all<'r, R: Files + Print + AllocGlobal>(
    rt: &'r R,
    plan: &Plan,
    parts: Parallelism,
    input: &Input,
    files: &[NewFile],
) -> Result<Vec<PartText<NewStream<'r, R>>>, JobFault>
    requires fits { parts ≤ plan.now.max }
    requires belongs { BelongsTo plan.now input.now }
    requires all { length files.now ≡ parts }
    ensures parts { IfOk result (λ texts. HaveTexts (stream_contents R.File.contents) parts (λ place. input_text plan.now (part_of_input plan.now parts place input.now)) texts.items) }
    ensures fault { IfErr result IsUnwritten }
{
    let mut texts = open_all(rt, files)?;
    written(write_texts(rt.alloc(), plan, parts, &mut texts, input))?;
    Ok(texts)
}

/// Has what was written in the files. One after the other takes its name.
fn keep_all<R: Files + Print>(
    rt: &R,
    files: &[NewFile],
    texts: &[PartText<NewStream<'_, R>>],
) -> Result<(), JobFault>
    ensures { IfErr result IsUnwritten }
{
    for (file, text) in files.iter().zip(texts.iter()) {
        written(file.keep(rt, text.stream()))?;
    }
    Ok(())
}

/// Writes the parts of an input to their files.
pub(crate) fn write_files<R: Files + Print + AllocGlobal>(
    rt: &R,
    plan: &Plan,
    parts: Parallelism,
    input: &Input,
    files: &[NewFile],
) -> Result<(), JobFault>
    requires fits { parts ≤ plan.now.max }
    requires belongs { BelongsTo plan.now input.now }
    requires all { length files.now ≡ parts }
    ensures { IfErr result IsUnwritten }
{
    let texts = write_all(rt, plan, parts, input, files)?;
    keep_all(rt, files, &texts)
}

/// Removes those files that have not their names yet.
pub(crate) fn remove_all<R: Files>(rt: &R, files: &[NewFile]) {
    for file in files {
        let _ = file.remove(rt);
    }
}
