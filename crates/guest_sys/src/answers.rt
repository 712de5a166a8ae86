//! Effects that are a reply alone.
ghost use Rattle.std.specs.Prelude.{◌≡◌, ◌-◌, ◌^◌, ◌≤◌, []};
ghost use Rattle.guest_sys.specs.Errors.{errno};

use crate::effect::{Effect, Reply};
use oc_base::items::Items;
use std::alloc::Global;

/// Why a call fails.
#[derive(Clone, Copy, Debug, PartialEq, Eq)]
pub enum Error {
    BadFile,
    TryAgain,
    NoRoom,
    Denied,
    BadAddress,
    Invalid,
    NoTerminal,
    NotServed,
}

impl Error {
    /// Its number.
    fn number(self) -> u64
        ensures value { result ≡ errno self }
        ensures some { 1 ≤ result }
    {
        match self {
            Error::BadFile => 9,
            Error::TryAgain => 11,
            Error::NoRoom => 12,
            Error::Denied => 13,
            Error::BadAddress => 14,
            Error::Invalid => 22,
            Error::NoTerminal => 25,
            Error::NotServed => 38,
        }
    }
}

/// A reply alone.
pub(crate) fn plain(alloc: Global, reply: Reply) -> Effect
    ensures { result ≡ record { reply = reply; woken = []; written = [] } }
{
    Effect {
        reply,
        woken: Items::new(alloc),
        written: Items::new(alloc),
    }
}

/// A number as the answer.
pub(crate) fn answer(alloc: Global, number: u64) -> Effect
    ensures { result ≡ record { reply = Reply.Answer number; woken = []; written = [] } }
{
    plain(alloc, Reply::Answer(number))
}

/// An error as the answer.
pub(crate) fn failure(alloc: Global, error: Error) -> Effect
    ensures { result ≡ record { reply = Reply.Answer (2 ^ 64 - errno error); woken = []; written = [] } }
{
    answer(alloc, u64::MAX - (error.number() - 1))
}
