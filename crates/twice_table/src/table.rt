//! A table of texts.

ghost use Rattle.std.specs.Prelude.{◌≡◌};
ghost use Rattle.twice_table.specs.Texts.{text_code};

use crate::chains::Chains;
use crate::packed::PackedTexts;
use std::alloc::{AllocError, Global};
use std::hash::{BuildHasher, Hasher, RandomState};
use std::marker::Model;

/// The code of a text, which starts from secret numbers.
fn code_of(state: &RandomState, text: &[u8]) -> u32
    ensures { result ≡ text_code state.now text.now }
{
    let mut hasher = state.build_hasher();
    hasher.write(text);
    (hasher.finish() & 0xffff_ffff) as u32
}

/// Texts of any bytes, each once, in the order in which they came, by hashes that start from secret numbers: so no
/// texts can be made whose hashes are all alike. Where hashes are alike the texts are compared.
#[derive(Drop)]
pub struct TextTable {
    state: RandomState,
    texts: PackedTexts,
    chains: Chains,
}

impl Model for TextTable {
    ghost use Rattle.std.specs.Prelude.{◌≡◌, ℕ, List, map};
    ghost use Rattle.twice_table.specs.Texts.{text_code, AreOnce};

    ghost Value = { List (List ℕ) };

    ghost view = { λ t. t.texts };

    ghost invariant = { λ t. (t.chains ≡ map (text_code t.state) t.texts) × AreOnce t.texts };
}

impl TextTable {
    ghost use Rattle.std.specs.Prelude.{◌≡◌, [], ◌∷◌, ◌++◌, position, is_some, bytes_eq, false, IfOk, OnOk, OnErr};
    ghost use Rattle.std.specs.List.{list_any};
    ghost use Rattle.twice_table.specs.Texts.{with_text};

    /// A table without texts. Its hashes start from this.
    pub fn new(alloc: Global, state: RandomState) -> TextTable
        ensures { result ≡ [] }
    {
        TextTable {
            state,
            texts: PackedTexts::new(alloc),
            chains: Chains::new(alloc),
        }
    }

    /// The place of a text that is there, counted from 0.
    fn place_of(&self, text: &[u8]) -> Option<usize>
        ensures place { result ≡ position (bytes_eq text.now) self.now }
        ensures found { is_some result ≡ list_any (bytes_eq text.now) self.now }
    {
        self.chains
            .find(&self.texts, code_of(&self.state, text), text)
    }

    /// Adds a text that is not there.
    fn add(&mut self, text: &[u8]) -> Result<(), AllocError>
        requires { list_any (bytes_eq text.now) self.old ≡ false }
        ensures texts { OnOk result (self.new ≡ self.old ++ text.now ∷ []) }
        ensures err { OnErr result (self.new ≡ self.old) }
    {
        self.texts.push(text)?;
        let code = code_of(&self.state, text);
        if self.chains.push(code).is_err() {
            self.texts.pop();
            return Err(AllocError);
        }
        Ok(())
    }

    /// The place of a text, counted from 0, where it is there already. Else it is added.
    ///
    /// # Errors
    ///
    /// Only where memory runs out, or there are 2^32 - 1 texts, and then no text is added.
    pub fn see(&mut self, text: &[u8]) -> Result<Option<usize>, AllocError>
        ensures place { IfOk result (λ place. place ≡ position (bytes_eq text.now) self.old) }
        ensures found { IfOk result (λ place. is_some place ≡ list_any (bytes_eq text.now) self.old) }
        ensures texts { OnOk result (self.new ≡ with_text self.old text.now) }
        ensures err { OnErr result (self.new ≡ self.old) }
    {
        match self.place_of(text) {
            Some(place) => Ok(Some(place)),
            None => {
                self.add(text)?;
                Ok(None)
            }
        }
    }
}
