//! The gate that harts leave by and come back by.

ghost use Rattle.std.specs.Prelude.{◌≡◌, ◌<◌, ◌+◌, ℕ, true, false, length, replicate, OnOk, OnErr, IfErr, IfNone, IfSome, IsErr, ◌↔◌};
ghost use Rattle.stop_gate.specs.Gates.{is_away, left, back_in, wanting, aways};

use crate::fault::{Held, StillAway};
use std::marker::Model;

/// Up to 64 harts, of which some are away. Contracts see it as a `Gated`. It takes no memory.
#[derive(Debug, Drop)]
pub struct Gate {
    away: [bool; 64],
    wanted: bool,
}

impl Model for Gate {
    ghost use Rattle.std.specs.Prelude.{◌≡◌, length};
    ghost use Rattle.stop_gate.specs.Gates.{Gated};

    ghost Value = { Gated };

    ghost view = { λ g. record { away = g.away; wanted = g.wanted } };

    ghost invariant = { λ g. length g.away ≡ 64 };
}

impl Gate {
    /// A gate with no hart away and no stop wanted.
    pub fn new() -> Gate
        ensures is { result ≡ record { away = replicate 64 false; wanted = false } }
        ensures none { aways result ≡ 0 }
    {
        Gate {
            away: [false; 64],
            wanted: false,
        }
    }

    /// What each gate keeps, for a caller's proof. It does nothing.
    pub fn kept(&self)
        ensures { length self.now.away ≡ 64 }
    {
        let _ = &self.wanted;
    }

    /// Whether hart `h` is away; none past 63 is.
    pub fn is_away(&self, h: u32) -> bool
        ensures { result ≡ is_away self.now h }
    {
        if h < 64 {
            return self.away[h as usize];
        }
        false
    }

    /// Whether a stop is wanted.
    pub fn wanted(&self) -> bool
        ensures { result ≡ self.now.wanted }
    {
        self.wanted
    }

    /// Lets hart `h` go, unless a stop is wanted.
    pub fn leave(&mut self, h: u32) -> Result<(), Held>
        requires hart { h < 64 }
        requires here { is_away self.old h ≡ false }
        ensures held { IsErr result ↔ (self.old.wanted ≡ true) }
        ensures ok { OnOk result (self.new ≡ left h self.old) }
        ensures more { OnOk result (aways self.new ≡ aways self.old + 1) }
        ensures err { OnErr result (self.new ≡ self.old) }
    {
        if self.wanted {
            return Err(Held);
        }
        self.away[h as usize] = true;
        Ok(())
    }

    /// Takes hart `h` back.
    pub fn back(&mut self, h: u32)
        requires hart { h < 64 }
        requires away { is_away self.old h ≡ true }
        ensures is { self.new ≡ back_in h self.old }
        ensures less { aways self.new + 1 ≡ aways self.old }
    {
        self.away[h as usize] = false;
    }

    /// Asks for a stop.
    pub fn want(&mut self)
        ensures { self.new ≡ wanting true self.old }
    {
        self.wanted = true;
    }

    /// Ends the wish for a stop.
    pub fn done(&mut self)
        ensures { self.new ≡ wanting false self.old }
    {
        self.wanted = false;
    }

    /// Ok where no hart is away, and else the least that is.
    pub fn stopped(&self) -> Result<(), StillAway>
        ensures ok { OnOk result ((h : ℕ) → is_away self.now h ≡ false) }
        ensures none { OnOk result (aways self.now ≡ 0) }
        ensures away { IfErr result (λ e. is_away self.now e.h ≡ true) }
        ensures least { IfErr result (λ e. (h : ℕ) → h < e.h → is_away self.now h ≡ false) }
    {
        match self.least_away() {
            Some(h) => Err(StillAway { h }),
            None => Ok(()),
        }
    }

    fn least_away(&self) -> Option<u32>
        ensures none { IfNone result ((h : ℕ) → is_away self.now h ≡ false) }
        ensures away { IfSome result (λ e. is_away self.now e ≡ true) }
        ensures least { IfSome result (λ e. (h : ℕ) → h < e → is_away self.now h ≡ false) }
    {
        match self.away.iter().position(|away| *away) {
            Some(h) => Some(h as u32),
            None => None,
        }
    }
}
