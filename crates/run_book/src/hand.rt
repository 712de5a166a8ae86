//! What a worker holds of the ledger of real steps.

ghost use Rattle.std.specs.Prelude.{◌≡◌, ◌<◌, ◌+◌, ◌^◌};

use crate::book::Run;
use std::marker::Model;
use std::sync::ledger;
use std::sync::ledger::Share;

/// A share of the ledger, and its amount as a number.
#[derive(Drop)]
struct Counted<J: Run> {
    share: Share<J>,
    made: u64,
    ghost same: { share.amount ≡ made },
}

/// A worker's parts of the ledger, and the real steps that it has counted.
#[derive(Drop)]
pub struct Hand<J: Run> {
    counted: Counted<J>,
}

impl<J: Run> Model for Hand<J> {
    ghost use Rattle.std.specs.Prelude.{◌≡◌};
    ghost use Rattle.run_book.specs.Booked.{Held};

    ghost Value = { Held };

    ghost view = { λ h. record { parts = h.counted.share.parts; made = h.counted.made } };
}

/// What a worker brings and gives back: one part of the ledger.
#[derive(Drop)]
pub struct Seat<J: Run> {
    pub hand: Hand<J>,
    pub ghost one: { hand.parts ≡ 1 },
}

impl<J: Run> Seat<J> {
    pub fn of(hand: Hand<J>) -> Seat<J>
        requires { hand.parts ≡ 1 }
        ensures { result.hand ≡ hand }
    {
        Seat { hand }
    }
}

impl<J: Run> Hand<J> {
    pub fn of(share: Share<J>) -> Hand<J>
        requires { share.amount ≡ 0 }
        ensures parts { result.parts ≡ share.parts }
        ensures none { result.made ≡ 0 }
    {
        Hand {
            counted: Counted { share, made: 0 },
        }
    }

    /// How many real steps it has counted.
    pub fn made(&self) -> u64
        ensures { result ≡ self.now.made }
    {
        self.counted.made
    }

    /// Takes a part out, with no step.
    pub fn seat(&mut self) -> Seat<J>
        requires { 1 < self.old.parts }
        ensures parts { self.new.parts + 1 ≡ self.old.parts }
        ensures made { self.new.made ≡ self.old.made }
        ensures none { result.hand.made ≡ 0 }
    {
        let share = self.counted.share.split_off(1, 0);
        Seat::of(Hand::of(share))
    }

    /// Counts steps that a worker made.
    pub fn count(&mut self, total: &mut ledger::Book<J>, n: u64)
        requires part { 0 < self.old.parts }
        requires room { total.old.total + n < 2 ^ 64 }
        ensures total { total.new.total ≡ total.old.total + n }
        ensures parts { self.new.parts ≡ self.old.parts }
        ensures made { self.new.made ≡ self.old.made + n }
    {
        count(total, &mut self.counted, n);
    }

    /// Takes another's hand in. The ledger has counted so many steps in all.
    pub fn add_up(&mut self, total: &mut ledger::Book<J>, real: u64, other: Hand<J>)
        requires { total.old.total ≡ real }
        ensures total { total.new.total ≡ total.old.total }
        ensures parts { self.new.parts ≡ self.old.parts + other.parts }
        ensures made { self.new.made ≡ self.old.made + other.made }
    {
        let Hand { counted } = other;
        add_up(total, real, &mut self.counted, counted);
    }

    /// The whole of the ledger is what its book has counted.
    pub fn audit(&mut self, total: &mut ledger::Book<J>)
        requires { self.old.parts ≡ J.parts }
        ensures made { self.new.made ≡ total.old.total }
        ensures total { total.new.total ≡ total.old.total }
        ensures same { self.new ≡ self.old }
    {
        audit(total, &mut self.counted);
    }
}

/// Counts steps that a worker made.
fn count<J: Run>(total: &mut ledger::Book<J>, mine: &mut Counted<J>, n: u64)
    requires part { 0 < mine.old.share.parts }
    requires room { total.old.total + n < 2 ^ 64 }
    ensures total { total.new.total ≡ total.old.total + n }
    ensures parts { mine.new.share.parts ≡ mine.old.share.parts }
    ensures made { mine.new.made ≡ mine.old.made + n }
{
    let Counted { share, made } = mine;
    total.audit(share);
    total.add(share, n);
    *made += n;
}

/// Takes another's share in. The ledger has counted so many steps in all.
fn add_up<J: Run>(total: &mut ledger::Book<J>, real: u64, mine: &mut Counted<J>, other: Counted<J>)
    requires { total.old.total ≡ real }
    ensures total { total.new.total ≡ total.old.total }
    ensures parts { mine.new.share.parts ≡ mine.old.share.parts + other.share.parts }
    ensures made { mine.new.made ≡ mine.old.made + other.made }
{
    let Counted { share, made } = other;
    let Counted {
        share: own,
        made: sum,
    } = mine;
    own.merge(share);
    total.audit(own);
    *sum += made;
}

/// The whole of the ledger is what its book has counted.
fn audit<J: Run>(total: &mut ledger::Book<J>, all: &mut Counted<J>)
    requires { all.old.share.parts ≡ J.parts }
    ensures made { all.new.made ≡ total.old.total }
    ensures total { total.new.total ≡ total.old.total }
    ensures parts { all.new.share.parts ≡ all.old.share.parts }
    ensures same { all.new.made ≡ all.old.made }
{
    total.audit(&mut all.share);
}
