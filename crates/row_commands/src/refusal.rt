//! What a command on rows is refused with.

ghost use Rattle.std.specs.Prelude.{◌≡◌, MatchResult};
ghost use Rattle.row_commands.specs.Refusals.{code_status, status};

use import_words::ImportFault;
use std::alloc::AllocError;
use std::fmt;

/// What kind of thing a command on rows is refused for.
#[derive(Clone, Copy, Debug, PartialEq, Eq)]
pub enum RowsCode {
    /// A line that is no row with as many numbers as the rows before.
    Rows,
    /// A row that is not behind the one before.
    Order,
    /// A number that is shown as nothing: that of no name, or a time in no year from 1 to 9999.
    Cell,
    /// A word that is none of those that can stand there.
    Word,
    /// A file that cannot be read.
    Read,
}

impl fmt::Display for RowsCode {
    fn fmt<W: fmt::Write>(&self, f: &mut fmt::Formatter<W>) -> fmt::Result {
        f.write_str(match self {
            RowsCode::Rows => "T1 Rows",
            RowsCode::Order => "T2 Order",
            RowsCode::Cell => "T3 Cell",
            RowsCode::Word => "C2 Number",
            RowsCode::Read => "F1 Read",
        })
    }
}

/// Why a command on rows is not done.
#[derive(Debug, Drop)]
pub enum RowsRefusal {
    /// What is refused, with where it stands and what it has to be.
    Refused(RowsCode, String),
    /// The words of columns, or the table of names, are refused as an import refuses them.
    Import(ImportFault),
    /// What was to be written could not be.
    Write,
    /// No memory was to be had.
    Memory,
}

impl fmt::Display for RowsRefusal {
    fn fmt<W: fmt::Write>(&self, f: &mut fmt::Formatter<W>) -> fmt::Result {
        match self {
            RowsRefusal::Refused(code, sentence) => write!(f, "{code} {sentence}"),
            RowsRefusal::Import(fault) => write!(f, "{fault}"),
            RowsRefusal::Write => f.write_str("F2 Write"),
            RowsRefusal::Memory => f.write_str("memory"),
        }
    }
}

impl From<AllocError> for RowsRefusal {
    ghost use Rattle.std.specs.Prelude.{◌≡◌};
    ghost use Rattle.row_commands.specs.declared.refusal.RowsRefusal.TheVariants.{Memory};

    ghost from_gives = { λ _ e. e ≡ Memory };

    fn from(_e: AllocError) -> RowsRefusal {
        RowsRefusal::Memory
    }
}

/// A refusal with a sentence, or that there was no memory for it.
pub fn refused(code: RowsCode, sentence: Result<String, AllocError>) -> RowsRefusal
    ensures { MatchResult sentence (λ text. result ≡ RowsRefusal.Refused code text) (λ _. result ≡ RowsRefusal.Memory) }
{
    match sentence {
        Ok(sentence) => RowsRefusal::Refused(code, sentence),
        Err(_) => RowsRefusal::Memory,
    }
}

/// The status of a refusal, which is 2 where a word is refused.
fn status_of_code(code: RowsCode) -> u8
    ensures { result ≡ code_status code }
{
    match code {
        RowsCode::Word => 2,
        _ => 3,
    }
}

/// The status to end with: 2 where the words are refused, 4 for want of memory, and 3 for any other fault.
pub fn status_of(refusal: &RowsRefusal) -> u8
    ensures { result ≡ status refusal.now }
{
    match refusal {
        RowsRefusal::Refused(code, _) => status_of_code(*code),
        RowsRefusal::Import(fault) => import_words::status_of(fault),
        RowsRefusal::Write => 3,
        RowsRefusal::Memory => 4,
    }
}
