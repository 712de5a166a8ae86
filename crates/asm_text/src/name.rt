//! Names of functions, objects and labels.

ghost use Rattle.std.specs.Prelude.{◌≡◌, true, false, IfOk, IfSome, IsSome, ◌↔◌, Some, None, if◌then◌else◌};
ghost use Rattle.std.specs.List.{list_all};
ghost use Rattle.asm_text.specs.Tokens.{is_name_byte, is_name};

use oc_base::fault::NoMemory;
use oc_base::items::Items;
use std::alloc::Global;
use std::marker::Model;

/// A letter, a digit, `_`, `.` or `$`.
pub fn is_name_byte(c: u8) -> bool
    ensures { result ≡ is_name_byte c }
{
    c.is_ascii_alphanumeric() || c == b'_' || c == b'.' || c == b'$'
}

fn all_name_bytes(word: &[u8]) -> bool
    ensures { result ≡ list_all is_name_byte word.now }
{
    word.iter().all(|c| is_name_byte(*c))
}

/// Whether a word is a name: name bytes, at least one, and no digit first.
#[tactic(auto, unfolding(crate::specs::Tokens::is_name))]
pub fn is_name(word: &[u8]) -> bool
    ensures { result ≡ is_name word.now }
{
    !word.is_empty() && !(b'0' <= word[0] && word[0] <= b'9') && all_name_bytes(word)
}

/// A name that a text gives or uses.
#[derive(Debug, Drop)]
pub struct Name {
    bytes: Items<u8>,
}

impl Model for Name {
    ghost use Rattle.std.specs.Prelude.{ℕ, List, ◌≡◌, true};
    ghost use Rattle.asm_text.specs.Tokens.{is_name};

    ghost Value = { List ℕ };

    ghost view = { λ n. n.bytes };

    ghost invariant = { λ n. is_name n.bytes ≡ true };
}

impl Name {
    /// The name that a word is, if it is one.
    pub fn of(alloc: Global, word: &[u8]) -> Result<Option<Name>, NoMemory>
        ensures { IfOk result (λ name. name ≡ (if is_name word.now then Some word.now else None)) }
    {
        if !is_name(word) {
            return Ok(None);
        }
        let bytes = Items::from_slice(alloc, word)?;
        Ok(Some(Name { bytes }))
    }

    /// Another of the same name.
    pub fn copy(&self, alloc: Global) -> Result<Name, NoMemory>
        ensures { IfOk result (λ name. name ≡ self.now) }
    {
        let bytes = Items::from_slice(alloc, self.bytes.as_slice())?;
        Ok(Name { bytes })
    }

    /// Its bytes, none of which is zero.
    pub fn as_slice(&self) -> &[u8]
        ensures bytes { result.now ≡ self.now }
        ensures name { is_name self.now ≡ true }
    {
        self.bytes.as_slice()
    }
}
