//! Why nothing is shown, and the lines that tell of it.

ghost use Rattle.std.specs.Prelude.{◌≡◌, ◌≢◌, ◌++◌, Err, IfOk, IsErr, codes, string_bytes};
ghost use Rattle.look.specs.Answer.{looked_of, line_of, with_meaning};

use crate::answer::Looked;
use crate::meaning::meaning;
use oc_base::fault::NoMemory;
use oc_base::items::Items;
use oc_base::text::Text;
use report::answer::{Ended, ProgramFault};
use report::line::last_line;
use sched_log::fault::ScriptFault;
use std::alloc::{AllocError, Global};
use top_call::reading::Unread;

/// A picture, and the name of the file that takes it.
#[derive(Debug, Drop)]
pub struct Drawn {
    pub name: Text,
    pub bytes: Items<u8>,
}

/// What is shown.
#[derive(Debug, Drop)]
pub struct Seen {
    pub text: Items<u8>,
    pub picture: Option<Drawn>,
}

/// Why nothing is shown.
#[derive(Debug, Drop)]
pub enum Refusal {
    /// The words don't have the form that the call asks for.
    Usage,
    /// What has this name, a file or the input, could not be read.
    ReadFault(Text),
    /// What has this name, a file or the input, is longer than its limit.
    TooLong(Text),
    /// The file is no program, for its first fault.
    Program(ProgramFault),
    /// The file is no script for the program, for its first fault, which these words tell of.
    Script {
        fault: ScriptFault,
        words: Items<u8>,
    },
    /// The program has no function of this number or name.
    NoFunction(Text),
    /// There was no room in memory.
    NoMemory,
}

impl From<Unread> for Refusal {
    ghost use Rattle.look.specs.Decision.{refusal_of};

    ghost from_gives = { λ why refusal. refusal ≡ refusal_of why };

    fn from(why: Unread) -> Refusal {
        match why {
            Unread::Failed(name) => Refusal::ReadFault(name),
            Unread::TooLong(name) => Refusal::TooLong(name),
            Unread::NoMemory => Refusal::NoMemory,
        }
    }
}

// The line that a run has for a fault, and below it what the fault means.
fn two_lines(alloc: Global, ended: &Ended, meaning: &[u8]) -> Result<Items<u8>, NoMemory>
    ensures { IfOk result (λ lines. lines ≡ with_meaning ended.now meaning.now) }
{
    let mut lines = last_line(alloc, ended)?;
    lines.extend_from_slice(b"ocolos_look: ")?;
    lines.extend_from_slice(meaning)?;
    lines.extend_from_slice(b"\n")?;
    Ok(lines)
}

fn program_lines(alloc: Global, fault: ProgramFault) -> Result<Items<u8>, NoMemory>
    ensures { IfOk result (λ lines. lines ≡ line_of (Refusal.Program fault)) }
{
    let meaning = meaning(alloc, fault)?;
    two_lines(alloc, &Ended::Program(fault), meaning.as_bytes())
}

impl Refusal {
    /// The answer of a look that refuses so.
    pub fn what(&self) -> Looked
        ensures { result ≡ looked_of (Err self.now) }
    {
        match *self {
            Refusal::Usage => Looked::Usage,
            Refusal::ReadFault(_) => Looked::ReadFault,
            Refusal::TooLong(_) => Looked::TooLong,
            Refusal::Program(fault) => Looked::Program(fault),
            Refusal::Script { fault, .. } => Looked::Script(fault),
            Refusal::NoFunction(_) => Looked::NoFunction,
            Refusal::NoMemory => Looked::NoMemory,
        }
    }

    // The line of a refusal that is no fault of program or script. Out of memory has none, since it would take memory.
    fn text(&self, alloc: Global) -> Result<String, AllocError>
        ensures line { IfOk result (λ text. string_bytes text ≡ line_of self.now) }
        ensures memory { self.now ≡ Refusal.NoMemory → IsErr result }
    {
        match self {
            Refusal::Usage => String::from_str(
                alloc,
                "ocolos_look: usage: ocolos_look PROGRAM [--region BASE:SIZE] [--function NAME | --script SCRIPT [--ring N] [--svg FILE]]\n",
            ),
            Refusal::ReadFault(name) => {
                let name = name.as_str();
                format!(in alloc; "ocolos_look: cannot read {name}\n")
            }
            Refusal::TooLong(name) => {
                let name = name.as_str();
                format!(in alloc; "ocolos_look: too long {name}\n")
            }
            Refusal::NoFunction(name) => {
                let name = name.as_str();
                format!(in alloc; "ocolos_look: no function {name}\n")
            }
            Refusal::Program(_) | Refusal::Script { .. } | Refusal::NoMemory => Err(AllocError),
        }
    }

    /// The lines that tell of the refusal, each with its newline. Out of memory has none, since it would take memory.
    pub fn lines(&self, alloc: Global) -> Result<Items<u8>, NoMemory>
        ensures lines { IfOk result (λ lines. lines ≡ line_of self.now) }
        ensures memory { IfOk result (λ _. self.now ≢ Refusal.NoMemory) }
    {
        if let Refusal::Program(fault) = self {
            return program_lines(alloc, *fault);
        }
        if let Refusal::Script { fault, words } = self {
            return two_lines(alloc, &Ended::Script(*fault), words.as_slice());
        }
        match self.text(alloc) {
            Ok(text) => Ok(Items::from_vec(text.into_bytes())),
            Err(_) => Err(NoMemory),
        }
    }
}
