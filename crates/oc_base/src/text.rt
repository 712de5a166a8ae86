ghost use Rattle.std.specs.Prelude.{◌≡◌, IfOk, string_bytes};

use crate::fault::NoMemory;
use std::alloc::Global;
use std::marker::Model;

/// A `String` that contracts see as its UTF-8 bytes.
#[derive(Debug, Drop)]
pub struct Text {
    text: String,
}

impl Model for Text {
    ghost use Rattle.std.specs.Prelude.{ℕ, List, string_bytes};

    ghost Value = { List ℕ };

    ghost view = { λ t. string_bytes t.text };
}

impl Text {
    /// The text of a `String`. It takes no memory.
    pub fn new(text: String) -> Self
        ensures { result ≡ string_bytes text }
    {
        Text { text }
    }

    /// A copy of a text.
    pub fn copy_of(alloc: Global, text: &str) -> Result<Self, NoMemory>
        ensures { IfOk result (λ copy. copy ≡ text.now) }
    {
        let text = String::from_str(alloc, text)?;
        Ok(Text { text })
    }

    pub fn as_str(&self) -> &str
        ensures { result.now ≡ self.now }
    {
        self.text.as_str()
    }
}
