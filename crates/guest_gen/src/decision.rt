//! What words and files ask for: a file to be written, or a refusal.

ghost use Rattle.std.specs.Prelude.{◌≡◌, ◌≢◌, Err, IfOk, IsErr, string_bytes};
ghost use Rattle.guest_gen.specs.Answer.{what_of, line_of};

use crate::answer::MadeWhat;
use oc_base::fault::NoMemory;
use oc_base::items::Items;
use oc_base::text::Text;
use rv_asm::fault::AsmFault;
use std::alloc::{AllocError, Global};
use top_call::reading::Unread;

/// A file to be written, and the line that `out` is told of it, if any.
#[derive(Debug, Drop)]
pub struct NewFile {
    pub name: Text,
    pub bytes: Items<u8>,
    pub line: Option<Text>,
}

/// Why no file is written.
#[derive(Debug, Drop)]
pub enum Refusal {
    /// The words have no form of a call.
    Usage,
    /// The text with this name could not be read.
    ReadFault(Text),
    /// The text with this name is longer than its limit.
    TooLong(Text),
    /// The text's first line with a fault, counted from 1, and the fault's kind.
    Fault { line: u64, kind: u8 },
    /// There was no room in memory.
    NoMemory,
}

impl From<Unread> for Refusal {
    ghost use Rattle.guest_gen.specs.Decision.{refusal_of};

    ghost from_gives = { λ why refusal. refusal ≡ refusal_of why };

    fn from(why: Unread) -> Refusal {
        match why {
            Unread::Failed(name) => Refusal::ReadFault(name),
            Unread::TooLong(name) => Refusal::TooLong(name),
            Unread::NoMemory => Refusal::NoMemory,
        }
    }
}

fn fault_line(alloc: Global, line: u64, kind: u8) -> Result<String, AllocError>
    ensures { IfOk result (λ text. string_bytes text ≡ line_of (Refusal.Fault line kind)) }
{
    format!(in alloc; "ocolos_asm: line {line} fault {kind}\n")
}

impl Refusal {
    /// The answer of a call that refuses so.
    pub fn what(&self) -> MadeWhat
        ensures { result ≡ what_of (Err self.now) }
    {
        match *self {
            Refusal::Usage => MadeWhat::Usage,
            Refusal::ReadFault(_) => MadeWhat::ReadFault,
            Refusal::TooLong(_) => MadeWhat::TooLong,
            Refusal::Fault { line, kind } => MadeWhat::Asm(AsmFault::Line { line, kind }),
            Refusal::NoMemory => MadeWhat::NoMemory,
        }
    }

    // The line as a text. Out of memory has none, since it would take memory.
    fn text(&self, alloc: Global) -> Result<String, AllocError>
        ensures line { IfOk result (λ text. string_bytes text ≡ line_of self.now) }
        ensures memory { self.now ≡ Refusal.NoMemory → IsErr result }
    {
        match self {
            Refusal::Usage => String::from_str(alloc, "ocolos_asm: usage\n"),
            Refusal::ReadFault(name) => {
                let name = name.as_str();
                format!(in alloc; "ocolos_asm: cannot read {name}\n")
            }
            Refusal::TooLong(name) => {
                let name = name.as_str();
                format!(in alloc; "ocolos_asm: too long {name}\n")
            }
            Refusal::Fault { line, kind } => fault_line(alloc, *line, *kind),
            Refusal::NoMemory => Err(AllocError),
        }
    }

    /// The line that tells of the refusal, with its newline. Out of memory has none, since it would take memory.
    pub fn line(&self, alloc: Global) -> Result<Items<u8>, NoMemory>
        ensures line { IfOk result (λ line. line ≡ line_of self.now) }
        ensures memory { IfOk result (λ _. self.now ≢ Refusal.NoMemory) }
    {
        match self.text(alloc) {
            Ok(text) => Ok(Items::from_vec(text.into_bytes())),
            Err(_) => Err(NoMemory),
        }
    }
}
