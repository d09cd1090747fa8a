//! A text whose tokens are taken from its bytes, with no index of them before.
ghost use Rattle.std.specs.Prelude.{◌≡◌, ◌<◌, ◌∷◌, [], ℕ, true, false, FitsSigned, Some, None, IfOk, IfSome, OnOk, length, option_map};
ghost use Rattle.std.specs.Bool.{MatchBool};
ghost use Rattle.std.specs.Int.{w64};
ghost use Rattle.json.specs.Token.{begin_array, begin_object};
ghost use Rattle.json.specs.Lex.{tokens};
ghost use Rattle.json.specs.Json.{after_end_array, read_key};
ghost use Rattle.json_parts.specs.Parts as parts;
ghost use Rattle.json_tokens.specs.Ahead.{part};
ghost use Rattle.json_tokens.specs.Lexemes.{Begins, tokens_from};

use crate::bytes::{behind, behind_spaces, name_at};
use crate::numbers::whole_at;
use json_parts::OtherForm;
use std::marker::Model;

/// The tokens that are still to come of a text.
///
/// What is written in a rare way, as a name with an escape, is not read.
#[derive(Drop)]
pub struct Scanner<'a> {
    rest: &'a [u8],
    behind_value: bool,
}

impl<'a> Model for Scanner<'a> {
    ghost use Rattle.std.specs.Prelude.{List};
    ghost use Rattle.json.specs.Token.{Token as SpecToken, tokens_code};

    ghost Value = { List SpecToken };

    ghost coded = { tokens_code };

    ghost use Rattle.json_tokens.specs.Lexemes.{tokens_from};

    ghost view = { λ a. tokens_from a.behind_value a.rest.now };
}

impl<'a> Scanner<'a> {
    /// The tokens of a text.
    #[inline(always)]
    pub fn new(text: &'a [u8]) -> Scanner<'a>
        ensures { result ≡ tokens text.now }
    {
        Scanner {
            rest: text,
            behind_value: false,
        }
    }

    /// The text from where a value or a name begins, past the comma before it.
    #[inline(always)]
    fn start(&self) -> Option<&'a [u8]>
        ensures { IfSome result (λ text. Begins self.now text.now) }
    {
        let text = behind_spaces(self.rest);
        if !self.behind_value {
            return Some(text);
        }
        let item = behind(text, b',')?;
        Some(behind_spaces(item))
    }

    /// What follows the bracket of the list that comes next.
    #[inline(always)]
    pub(crate) fn list_start(&self) -> Option<&'a [u8]>
        ensures { IfSome result (λ rest. self.now ≡ begin_array ∷ tokens_from false rest.now) }
    {
        let Some(text) = self.start() else {
            return None;
        };
        let Some(rest) = behind(text, b'[') else {
            return None;
        };
        Some(rest)
    }

    /// Goes on with these bytes, behind a value.
    #[inline(always)]
    pub(crate) fn stand_behind(&mut self, rest: &'a [u8])
        ensures { self.new ≡ tokens_from true rest.now }
    {
        self.rest = rest;
        self.behind_value = true;
    }

    /// Passes the bracket that opens a list.
    ///
    /// # Errors
    ///
    /// [`OtherForm`] where no list comes next.
    #[inline(always)]
    pub fn open_list(&mut self) -> Result<(), OtherForm>
        ensures passed { OnOk result (self.old ≡ begin_array ∷ self.new) }
    {
        let Some(rest) = self.list_start() else {
            return Err(OtherForm);
        };
        self.rest = rest;
        self.behind_value = false;
        Ok(())
    }

    /// Passes the brace that opens an object.
    ///
    /// # Errors
    ///
    /// [`OtherForm`] where no object comes next.
    #[inline(always)]
    pub fn open_object(&mut self) -> Result<(), OtherForm>
        ensures passed { OnOk result (self.old ≡ begin_object ∷ self.new) }
    {
        let Some(text) = self.start() else {
            return Err(OtherForm);
        };
        let Some(rest) = behind(text, b'{') else {
            return Err(OtherForm);
        };
        self.rest = rest;
        self.behind_value = false;
        Ok(())
    }

    /// Passes the bracket that closes a list, if it comes next.
    #[inline(always)]
    pub fn take_end_array(&mut self) -> bool
        ensures { MatchBool result (after_end_array self.old ≡ Some self.new) (self.new ≡ self.old) }
    {
        let Some(rest) = behind(behind_spaces(self.rest), b']') else {
            return false;
        };
        self.rest = rest;
        self.behind_value = true;
        true
    }

    /// Passes the brace that closes an object, if it comes next.
    #[inline(always)]
    fn take_end_object(&mut self) -> bool
        ensures { MatchBool result (read_key self.old ≡ Some (None, self.new)) (self.new ≡ self.old) }
    {
        let Some(rest) = behind(behind_spaces(self.rest), b'}') else {
            return false;
        };
        self.rest = rest;
        self.behind_value = true;
        true
    }

    /// Passes the brace that closes an object.
    ///
    /// # Errors
    ///
    /// [`OtherForm`] where the object goes on.
    #[inline(always)]
    pub fn close_object(&mut self) -> Result<(), OtherForm>
        ensures said { OnOk result (read_key self.old ≡ Some (None, self.new)) }
    {
        if !self.take_end_object() {
            return Err(OtherForm);
        }
        Ok(())
    }

    /// The name of the next member of an object, which has one.
    ///
    /// # Errors
    ///
    /// [`OtherForm`] where no name comes next that is written without escapes.
    #[inline(always)]
    pub fn next_name(&mut self) -> Result<&'a [u8], OtherForm>
        ensures said { IfOk result (λ name. read_key self.old ≡ Some (Some name.now, self.new)) }
        ensures shorter { OnOk result (length self.new < length self.old) }
    {
        let Some(text) = self.start() else {
            return Err(OtherForm);
        };
        let Some((name, rest)) = name_at(text) else {
            return Err(OtherForm);
        };
        self.rest = rest;
        self.behind_value = false;
        Ok(name)
    }

    /// The name of the next member of an object, or None past the brace that closes it.
    ///
    /// # Errors
    ///
    /// [`OtherForm`] where no name comes next that is written without escapes.
    #[inline(always)]
    pub fn next_key(&mut self) -> Result<Option<&'a [u8]>, OtherForm>
        ensures said { IfOk result (λ k. read_key self.old ≡ Some (option_map (λ s. s.now) k, self.new)) }
    {
        if self.take_end_object() {
            return Ok(None);
        }
        let name = self.next_name()?;
        Ok(Some(name))
    }

    /// The next value, a whole number of 64 bits. Neither `-0` nor `3.0` is one.
    ///
    /// # Errors
    ///
    /// [`OtherForm`] where the next value is written otherwise, or is none.
    #[inline(always)]
    pub fn next_whole(&mut self) -> Result<i64, OtherForm>
        ensures said { IfOk result (λ n. (depth : ℕ) → part parts.whole depth self.old ≡ Some (n, self.new)) }
        ensures shorter { OnOk result (length self.new < length self.old) }
        ensures fits { IfOk result (λ n. FitsSigned w64 n) }
    {
        let Some(text) = self.start() else {
            return Err(OtherForm);
        };
        let Some((number, rest)) = whole_at(text) else {
            return Err(OtherForm);
        };
        self.rest = rest;
        self.behind_value = true;
        Ok(number)
    }

    /// Nothing but white space is left of the text.
    ///
    /// # Errors
    ///
    /// [`OtherForm`] where more of the text is left.
    #[inline(always)]
    pub fn end(&self) -> Result<(), OtherForm>
        ensures { OnOk result (self.now ≡ []) }
    {
        if behind_spaces(self.rest).is_empty() {
            return Ok(());
        }
        Err(OtherForm)
    }
}
