//! What an import is refused with.

ghost use Rattle.std.specs.Prelude.{◌≡◌, MatchResult};
ghost use Rattle.import_words.specs.Status.{code_status, status};

use std::alloc::{AllocError, AllocFailed};
use std::fmt;

/// What kind of thing an import is refused for.
#[derive(Clone, Copy, Debug, PartialEq, Eq)]
pub enum ImportCode {
    /// The word of the columns.
    Columns,
    /// The words of the sources.
    Sources,
    /// The header of a file.
    Header,
    /// A record has another number of fields than the header.
    Width,
    /// The text of a field.
    Value,
    /// A time that is not -2^62 to 2^62 - 1.
    TimeRange,
    /// A row that is late.
    LateRow,
    /// A table of names.
    Names,
    /// A line of an NDJSON file that is no JSON object, or lacks a member or has it twice.
    Object,
    /// A record that is the same as one before it in the fields that tell records apart.
    Twice,
    /// A word that is to be a number in its range.
    Number,
    /// Words that do not go together.
    Options,
    /// A file that cannot be read.
    Read,
    /// A file that cannot be written.
    Write,
}

impl fmt::Display for ImportCode {
    ghost use Rattle.std.specs.Prelude.{Some};
    ghost use Rattle.import_words.specs.Codes.{code_text};

    ghost output = { λ code. Some (code_text code) };

    fn fmt<W: fmt::Write>(&self, f: &mut fmt::Formatter<W>) -> fmt::Result {
        f.write_str(match self {
            ImportCode::Columns => "D1 Columns",
            ImportCode::Sources => "D2 Sources",
            ImportCode::Header => "D3 Header",
            ImportCode::Width => "D4 Width",
            ImportCode::Value => "D5 Value",
            ImportCode::TimeRange => "D6 TimeRange",
            ImportCode::LateRow => "D7 LateRow",
            ImportCode::Names => "D8 Names",
            ImportCode::Object => "D9 Object",
            ImportCode::Twice => "D10 Twice",
            ImportCode::Number => "C2 Number",
            ImportCode::Options => "C3 Options",
            ImportCode::Read => "F1 Read",
            ImportCode::Write => "F2 Write",
        })
    }
}

/// Why an import is not done.
#[derive(Debug, Drop)]
pub enum ImportFault {
    /// What is refused, with where it stands and what it has to be.
    Refused(ImportCode, String),
    /// What was to be written could not be.
    Write,
    /// No memory was to be had.
    Memory,
}

impl fmt::Display for ImportFault {
    fn fmt<W: fmt::Write>(&self, f: &mut fmt::Formatter<W>) -> fmt::Result {
        match self {
            ImportFault::Refused(code, sentence) => write!(f, "{code} {sentence}"),
            ImportFault::Write => f.write_str("F2 Write"),
            ImportFault::Memory => f.write_str("memory"),
        }
    }
}

impl From<AllocError> for ImportFault {
    ghost use Rattle.std.specs.Prelude.{◌≡◌};
    ghost use Rattle.import_words.specs.declared.refusal.ImportFault.TheVariants.{Memory};

    ghost from_gives = { λ _ e. e ≡ Memory };

    fn from(_e: AllocError) -> ImportFault {
        ImportFault::Memory
    }
}

impl<T: Drop> From<AllocFailed<T>> for ImportFault {
    ghost use Rattle.std.specs.Prelude.{◌≡◌};
    ghost use Rattle.import_words.specs.declared.refusal.ImportFault.TheVariants.{Memory};

    ghost from_gives = { λ _ e. e ≡ Memory };

    fn from(_e: AllocFailed<T>) -> ImportFault {
        ImportFault::Memory
    }
}

/// A refusal with a sentence, or that there was no memory for it.
pub fn refused(code: ImportCode, sentence: Result<String, AllocError>) -> ImportFault
    ensures { MatchResult sentence (λ text. result ≡ ImportFault.Refused code text) (λ _. result ≡ ImportFault.Memory) }
{
    match sentence {
        Ok(sentence) => ImportFault::Refused(code, sentence),
        Err(_) => ImportFault::Memory,
    }
}

/// The status of a refusal, which is 2 where the words are refused.
fn status_of_code(code: ImportCode) -> u8
    ensures { result ≡ code_status code }
{
    match code {
        ImportCode::Columns | ImportCode::Sources | ImportCode::Number | ImportCode::Options => 2,
        _ => 3,
    }
}

/// The status to end with: 2 where the words are refused, 4 for want of memory, and 3 for any other fault.
pub fn status_of(fault: &ImportFault) -> u8
    ensures { result ≡ status fault.now }
{
    match fault {
        ImportFault::Refused(code, _) => status_of_code(*code),
        ImportFault::Write => 3,
        ImportFault::Memory => 4,
    }
}
