//! Codes of texts, in chains by which a text is found.

ghost use Rattle.std.specs.Prelude.{ℕ, true, false, IfSome, IfNone, ◌≡◌, ◌%◌, ◌^◌, ◌<◌, ◌≤◌, [], ◌∷◌, ◌++◌, length, bytes_eq, ◌==◌, ◌&&◌, slice_index_or, IfOk, OnOk, OnErr};
ghost use Rattle.twice_table.specs.Linked.{codes_of, AreLinked};

use crate::packed::PackedTexts;
use std::alloc::{AllocError, Global};
use std::marker::Model;

/// How many chains there are at first.
const FIRST_CHAINS: usize = 16;

/// The most codes: their places, counted from 1, have 32 bits.
const MOST_CODES: usize = 0xffff_ffff;

/// A code in its chain.
#[derive(Clone, Copy)]
pub struct Link {
    /// The code.
    pub code: u32,
    /// The place of the code before it in its chain, counted from 1, or 0 where there is none.
    pub before: u32,
}

/// The chain of a code.
fn chain_of(code: u32, chains: usize) -> usize
    requires { 0 < chains }
    ensures value { result ≡ code % chains }
    ensures within { result < chains }
{
    code as usize % chains
}

/// Links codes in so many chains, and tells the place of the last one of each.
fn link_all(alloc: Global, links: &mut Vec<Link>, chains: usize) -> Result<Vec<u32>, AllocError>
    requires some { 0 < chains }
    requires enough { length links.old.items ≤ chains }
    requires few { length links.old.items < 2 ^ 32 }
    ensures codes { codes_of links.new.items ≡ codes_of links.old.items }
    ensures linked { IfOk result (λ lasts. (length lasts.items ≡ chains) × AreLinked links.new.items lasts.items) }
    ensures err { OnErr result (links.new.items ≡ links.old.items) }
{
    let mut lasts = vec![in alloc; 0u32; chains]?;
    for i in 0..links.len() {
        let link = links[i];
        let chain = chain_of(link.code, chains);
        links[i].before = lasts[chain];
        lasts[chain] = i as u32 + 1;
    }
    Ok(lasts)
}

/// Makes more chains where there are as many codes.
fn make_room(alloc: Global, links: &mut Vec<Link>, lasts: &mut Vec<u32>) -> Result<(), AllocError>
    requires { AreLinked links.old.items lasts.old.items }
    ensures codes { codes_of links.new.items ≡ codes_of links.old.items }
    ensures linked { AreLinked links.new.items lasts.new.items }
    ensures room { OnOk result (length links.new.items < length lasts.new.items) }
{
    if links.len() < lasts.len() {
        return Ok(());
    }
    let chains = lasts.len().saturating_mul(2).max(FIRST_CHAINS);
    *lasts = link_all(alloc, links, chains)?;
    Ok(())
}

/// Links one more code behind the others, where there are more chains.
fn link_one(links: &mut Vec<Link>, lasts: &mut Vec<u32>, code: u32) -> Result<(), AllocError>
    requires linked { AreLinked links.old.items lasts.old.items }
    requires room { length links.old.items < length lasts.old.items }
    ensures linked { AreLinked links.new.items lasts.new.items }
    ensures codes { OnOk result (codes_of links.new.items ≡ codes_of links.old.items ++ code ∷ []) }
    ensures err { OnErr result (codes_of links.new.items ≡ codes_of links.old.items) }
{
    let chain = chain_of(code, lasts.len());
    let place = links.len();
    if place >= MOST_CODES {
        return Err(AllocError);
    }
    let before = lasts[chain];
    links.push(Link { code, before })?;
    lasts[chain] = place as u32 + 1;
    Ok(())
}

/// Whether the text at a place, which has a code, is one that has a code.
fn is_text(texts: &PackedTexts, place: usize, code: u32, text: &[u8], wanted: u32) -> bool
    requires { place < length texts.now }
    ensures { result ≡ (code == wanted && bytes_eq text.now (slice_index_or texts.now place [])) }
{
    code == wanted && text == texts.get(place)
}

/// The place of a text of a code among as many texts as there are codes, counted from 0.
fn find_linked(
    links: &[Link],
    lasts: &[u32],
    texts: &PackedTexts,
    code: u32,
    text: &[u8],
) -> Option<usize>
    requires linked { AreLinked links.now lasts.now }
    requires whole { length texts.now ≡ length links.now }
    ensures some { IfSome result (λ place. (place < length links.now) × (bytes_eq text.now (slice_index_or texts.now place []) ≡ true)) }
    ensures none { IfNone result ((i : ℕ) → i < length links.now → slice_index_or (codes_of links.now) i 0 ≡ code → bytes_eq text.now (slice_index_or texts.now i []) ≡ false) }
{
    if lasts.is_empty() {
        return None;
    }
    let mut next = lasts[chain_of(code, lasts.len())] as usize;
    while next > 0 {
        let place = next - 1;
        let link = links[place];
        if is_text(texts, place, link.code, text, code) {
            return Some(place);
        }
        next = link.before as usize;
    }
    None
}

/// Codes of texts, in the order in which they came, by chains.
#[derive(Drop)]
pub(crate) struct Chains {
    alloc: Global,
    links: Vec<Link>,
    /// The place of the last code of each chain, counted from 1, or 0 where there is none.
    lasts: Vec<u32>,
}

impl Model for Chains {
    ghost use Rattle.std.specs.Prelude.{ℕ, List};
    ghost use Rattle.twice_table.specs.Linked.{codes_of, AreLinked};

    ghost Value = { List ℕ };

    ghost view = { λ c. codes_of c.links.items };

    ghost invariant = { λ c. AreLinked c.links.items c.lasts.items };
}

impl Chains {
    ghost use Rattle.std.specs.Prelude.{◌≡◌, ◌<◌, ℕ, true, false, bytes_eq, [], ◌∷◌, ◌++◌, length, slice_index_or, IfSome, IfNone, OnOk, OnErr};

    /// No codes.
    pub(crate) fn new(alloc: Global) -> Chains
        ensures { result ≡ [] }
    {
        Chains {
            alloc,
            links: Vec::new(alloc),
            lasts: Vec::new(alloc),
        }
    }

    /// The place of a text of a code among as many texts as there are codes, counted from 0.
    pub(crate) fn find(&self, texts: &PackedTexts, code: u32, text: &[u8]) -> Option<usize>
        requires { length texts.now ≡ length self.now }
        ensures some { IfSome result (λ place. (place < length self.now) × (bytes_eq text.now (slice_index_or texts.now place []) ≡ true)) }
        ensures none { IfNone result ((i : ℕ) → i < length self.now → slice_index_or self.now i 0 ≡ code → bytes_eq text.now (slice_index_or texts.now i []) ≡ false) }
    {
        find_linked(&self.links, &self.lasts, texts, code, text)
    }

    /// Puts a code behind the others.
    ///
    /// # Errors
    ///
    /// Only where memory runs out, or there are 2^32 - 1 codes, and then the codes stay as they are.
    pub(crate) fn push(&mut self, code: u32) -> Result<(), AllocError>
        ensures codes { OnOk result (self.new ≡ self.old ++ code ∷ []) }
        ensures err { OnErr result (self.new ≡ self.old) }
    {
        make_room(self.alloc, &mut self.links, &mut self.lasts)?;
        link_one(&mut self.links, &mut self.lasts, code)
    }
}
