//! The page of a fault.

ghost use Rattle.std.specs.Prelude.{◌≡◌, option_copied, option_map, map};
ghost use Rattle.std.specs.List.{find};
ghost use Rattle.fault_pages.specs.declared.import_pages.TheConstants.{IMPORT_PAGES};
ghost use Rattle.fault_pages.specs.declared.other_pages.TheConstants.{OTHER_PAGES};
ghost use Rattle.fault_pages.specs.declared.savepoint_pages.TheConstants.{SAVEPOINT_PAGES};
ghost use Rattle.fault_pages.specs.declared.text_pages.TheConstants.{TEXT_PAGES};
ghost use Rattle.fault_pages.specs.Pages.{TellsPage, explained, last_explained, later_explained, page_said, same_code};

use crate::import_pages::IMPORT_PAGES;
use crate::other_pages::OTHER_PAGES;
use crate::savepoint_pages::SAVEPOINT_PAGES;
use crate::text_pages::TEXT_PAGES;
use std::io::Write;
use user_texts::{TextFault, write_text};

/// A page: the code of a fault, and what docs/FAULTS.md says of it.
pub type FaultPage<'a> = (&'a str, &'a str);

/// Whether two words are one code, in capital or small letters.
fn is_same_code(a: &str, b: &str) -> bool
    ensures { result ≡ same_code a.now b.now }
{
    a.eq_ignore_ascii_case(b)
}

/// The first page with a code.
fn page_with<'a>(pages: &'a [FaultPage<'a>], code: &str) -> Option<&'a FaultPage<'a>>
    ensures { option_copied result ≡ find (λ page. same_code page.0.now code.now) pages.now }
{
    pages.iter().find(|page| is_same_code(page.0, code))
}

/// The text of the first page with a code.
fn text_with<'a>(pages: &'a [FaultPage<'a>], code: &str) -> Option<&'a str>
    ensures { option_map (λ text. text.now) result ≡ page_said (map (λ page. (page.0.now, page.1.now)) pages.now) code.now }
{
    match page_with(pages, code) {
        Some((_, text)) => Some(text),
        None => None,
    }
}

/// The text of the page of a fault of a plan, an input or a scale.
fn text_page_of(code: &str) -> Option<&'static str>
    ensures { option_map (λ text. text.now) result ≡ page_said (map (λ page. (page.0.now, page.1.now)) TEXT_PAGES) code.now }
{
    text_with(&TEXT_PAGES, code)
}

/// The text of the page of a fault of an import, or of rows.
fn import_page_of(code: &str) -> Option<&'static str>
    ensures { option_map (λ text. text.now) result ≡ page_said (map (λ page. (page.0.now, page.1.now)) IMPORT_PAGES) code.now }
{
    text_with(&IMPORT_PAGES, code)
}

/// The text of the page of a fault of a savepoint, of going on from one, or of a receipt.
fn savepoint_page_of(code: &str) -> Option<&'static str>
    ensures { option_map (λ text. text.now) result ≡ page_said (map (λ page. (page.0.now, page.1.now)) SAVEPOINT_PAGES) code.now }
{
    text_with(&SAVEPOINT_PAGES, code)
}

/// The text of the page of another fault.
fn other_page_of(code: &str) -> Option<&'static str>
    ensures { option_map (λ text. text.now) result ≡ page_said (map (λ page. (page.0.now, page.1.now)) OTHER_PAGES) code.now }
{
    text_with(&OTHER_PAGES, code)
}

/// The text of the page of a fault of savepoints, or of another one.
fn last_page_of(code: &str) -> Option<&'static str>
    ensures { option_map (λ text. text.now) result ≡ last_explained code.now }
{
    match savepoint_page_of(code) {
        Some(text) => Some(text),
        None => other_page_of(code),
    }
}

/// The text of the page of a fault of an import, or of one of those.
fn later_page_of(code: &str) -> Option<&'static str>
    ensures { option_map (λ text. text.now) result ≡ later_explained code.now }
{
    match import_page_of(code) {
        Some(text) => Some(text),
        None => last_page_of(code),
    }
}

/// The text of the page with a code.
fn page_of(code: &str) -> Option<&'static str>
    ensures { option_map (λ text. text.now) result ≡ explained code.now }
{
    match text_page_of(code) {
        Some(text) => Some(text),
        None => later_page_of(code),
    }
}

/// Writes the page of the fault with a code, as `I5` or `i5`: what it means, an example, and what to do.
///
/// # Errors
///
/// `NoPage` where no page has the code; `Write` where the writer refuses the page.
pub fn explain<W: Write>(code: &str, out: &mut W) -> Result<(), TextFault>
    ensures { TellsPage (explained code.now) result (W.contents out.old) (W.contents out.new) }
{
    match page_of(code) {
        Some(text) => write_text(out, text),
        None => Err(TextFault::NoPage),
    }
}
