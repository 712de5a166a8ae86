//! Tests of one word of a layout that stands alone over the original text.

ghost use Rattle.std.specs.Prelude.{◌≡◌, ◌+◌, ◌<◌, ◌^◌, ◌&&◌, ◌||◌, ◌==◌, Option, Some, None, pos, neg_ℤ, ◌≤ℤ◌};
ghost use Rattle.std.specs.Option.{option_and_then};
ghost use Rattle.rv_isa.specs.Decoded.{decoded};
ghost use Rattle.image.specs.Texts.{word_at};
ghost use Rattle.layout.specs.Laid.{item_at, point_in};
ghost use Rattle.layout.specs.Points.{second_of, start_of, read};
ghost use Rattle.layout.specs.Tests.{same_cond, stands_as, starts_as, is_mid, point_alone, stands, starts, returns, kept_test, sum_test, moved_test, jump_test, starts_at, second_test, branch_test, row_test, start_by, start_over, start_test, hop_by, hop_test, makes_address, mid_test};

use crate::calls::{second_of, start_of};
use crate::layout::Layout;
use crate::point::Point;
use image::picture::Image;
use image::targets::{made_by, target};
use rv_decode::decode;
use rv_isa::fields::{Imm12, Imm20, OffB, OffJ, Reg};
use rv_isa::instr::{Cond, ImmOp, Instr};

/// A layout that stands alone over an image's text.
#[derive(Drop)]
pub struct Alone<'a> {
    pub image: &'a Image,
    pub layout: &'a Layout,
}

/// A branch of the original program.
#[derive(Clone, Copy, Debug, PartialEq, Eq)]
pub struct Fork {
    cond: Cond,
    rs1: Reg,
    rs2: Reg,
    off: OffB,
}

fn same_cond(c: Cond, d: Cond) -> bool
    ensures { result ≡ same_cond c d }
{
    match (c, d) {
        (Cond::Eq, Cond::Eq) => true,
        (Cond::Ne, Cond::Ne) => true,
        (Cond::Lt, Cond::Lt) => true,
        (Cond::Ge, Cond::Ge) => true,
        (Cond::Ltu, Cond::Ltu) => true,
        (Cond::Geu, Cond::Geu) => true,
        _ => false,
    }
}

fn stands_as(p: Option<Point>, x: u64) -> bool
    ensures { result ≡ stands_as p x }
{
    match p {
        Some(Point::Start(y)) => y == x,
        Some(Point::Hop(y)) => y == x,
        _ => false,
    }
}

fn starts_as(p: Option<Point>, x: u64) -> bool
    ensures { result ≡ starts_as p x }
{
    match p {
        Some(Point::Start(y)) => y == x,
        _ => false,
    }
}

fn is_mid(p: Option<Point>, x: u64) -> bool
    ensures { result ≡ is_mid p x }
{
    match p {
        Some(Point::Mid(y)) => y == x,
        _ => false,
    }
}

/// Whether an instruction is an AUIPC of a register other than x0.
fn makes_address(i: &Option<Instr>) -> bool
    ensures { result ≡ makes_address i.now }
{
    match i {
        Some(Instr::Auipc { rd, .. }) => rd.get() != 0,
        _ => false,
    }
}

impl Alone<'_> {
    /// What an address stands for.
    #[tactic(auto, unfolding(crate::specs::Tests::point_alone))]
    fn point(&self, at: u64) -> Option<Point>
        ensures { result ≡ point_alone self.now.image.now self.now.layout.now at }
    {
        let region = self.image.region();
        if region.from <= at && at < region.to {
            self.layout.point_at(at)
        } else {
            Some(Point::Start(at))
        }
    }

    /// Whether an address is a Start or a Hop of another.
    #[tactic(auto, unfolding(crate::specs::Tests::stands))]
    fn stands(&self, at: u64, y: u64) -> bool
        ensures { result ≡ stands self.now.image.now self.now.layout.now at y }
    {
        stands_as(self.point(at), y)
    }

    /// Whether an address is a Start of another.
    #[tactic(auto, unfolding(crate::specs::Tests::starts))]
    fn starts(&self, at: u64, y: u64) -> bool
        ensures { result ≡ starts self.now.image.now self.now.layout.now at y }
    {
        starts_as(self.point(at), y)
    }

    /// What the layout's word at an address reads as.
    #[tactic(auto, unfolding(crate::specs::Points::read))]
    fn read(&self, at: u64) -> Option<Instr>
        ensures { result ≡ read (item_at self.now.layout.now.base self.now.layout.now.words) at }
    {
        let word = self.layout.word_at(at)?;
        decode(word)
    }
}

#[tactic(auto, unfolding(crate::specs::Tests::returns, crate::specs::Tests::kept_test))]
impl Alone<'_> {
    /// Whether the word after a jump that keeps a link in `rd` goes on at an address.
    fn returns(&self, at: u64, rd: Reg, y: u64) -> bool
        requires { at + 8 < 2 ^ 64 }
        ensures { result ≡ returns self.now.image.now self.now.layout.now at rd y }
    {
        rd.get() == 0 || self.stands(at + 4, y)
    }

    /// Whether a word that is kept renders the one at `x`.
    fn is_kept(&self, at: u64, x: u64, word: u32, now: u32) -> bool
        requires at { at + 8 < 2 ^ 64 }
        requires x { x + 4 < 2 ^ 64 }
        ensures { result ≡ kept_test self.now.image.now self.now.layout.now at x word now }
    {
        now == word && self.stands(at + 4, x + 4)
    }
}

#[tactic(auto, unfolding(crate::specs::Tests::sum_test, crate::specs::Tests::moved_test))]
impl Alone<'_> {
    /// Whether an instruction is an ADDI that makes a value of what an AUIPC at `at` made.
    fn makes(&self, at: u64, rd: Reg, high: Imm20, value: u64, i: &Option<Instr>) -> bool
        ensures { result ≡ sum_test self.now.image.now self.now.layout.now at rd high value i.now }
    {
        match i {
            Some(
                Instr::AluImm {
                    op: ImmOp::Addi,
                    rd: d,
                    rs1: s,
                    imm,
                },
            ) => {
                let sum = target(made_by(at, high.get() as u64), imm.get());
                d.get() == rd.get() && s.get() == rd.get() && sum == value
            }
            _ => false,
        }
    }

    /// Whether two words make the value that an AUIPC at `x` makes.
    fn is_moved(&self, at: u64, x: u64, rd: Reg, imm: Imm20, i: &Option<Instr>) -> bool
        requires at { at + 8 < 2 ^ 64 }
        requires x { x + 4 < 2 ^ 64 }
        ensures { result ≡ moved_test self.now.image.now self.now.layout.now at x rd imm i.now }
    {
        match i {
            Some(Instr::Auipc { rd: r, imm: high }) => {
                r.get() == rd.get()
                    && is_mid(self.layout.point_at(at + 4), x)
                    && self.makes(
                        at,
                        rd,
                        *high,
                        made_by(x, imm.get() as u64),
                        &self.read(at + 4),
                    )
                    && self.stands(at + 8, x + 4)
            }
            _ => false,
        }
    }
}

#[tactic(auto, unfolding(crate::specs::Tests::jump_test, crate::specs::Tests::starts_at, crate::specs::Tests::second_test))]
impl Alone<'_> {
    /// Whether an instruction renders a JAL at `x`.
    fn is_jump(&self, at: u64, x: u64, rd: Reg, off: OffJ, i: &Option<Instr>) -> bool
        requires at { at + 8 < 2 ^ 64 }
        requires x { x + 4 < 2 ^ 64 }
        ensures { result ≡ jump_test self.now.image.now self.now.layout.now at x rd off i.now }
    {
        match i {
            Some(Instr::Jal { rd: r, off: aim }) => {
                r.get() == rd.get()
                    && self.stands(target(at, aim.get()), target(x, off.get()))
                    && self.returns(at, rd, x + 4)
            }
            _ => false,
        }
    }

    fn starts_at(&self, at: u64, start: Option<u64>) -> bool
        ensures { result ≡ starts_at self.now.image.now self.now.layout.now at start }
    {
        match start {
            Some(y) => self.starts(at, y),
            None => false,
        }
    }

    /// Whether an instruction is a JAL to the function of the pair whose second word is at `x`.
    fn is_second(&self, at: u64, x: u64, rd: Reg, i: &Option<Instr>) -> bool
        ensures { result ≡ second_test self.now.image.now self.now.layout.now at x rd i.now }
    {
        match i {
            Some(Instr::Jal { rd: r, off: aim }) => {
                let start = second_of(self.image, x).and_then(|g| start_of(self.image, g));
                r.get() == rd.get() && self.starts_at(target(at, aim.get()), start)
            }
            _ => false,
        }
    }
}

#[tactic(auto, unfolding(crate::specs::Tests::branch_test))]
impl Alone<'_> {
    /// Whether an instruction renders a branch at `x`.
    fn is_branch(&self, at: u64, x: u64, b: &Fork, i: &Option<Instr>) -> bool
        requires at { at + 8 < 2 ^ 64 }
        requires x { x + 4 < 2 ^ 64 }
        ensures { result ≡ branch_test self.now.image.now self.now.layout.now at x b.now.cond b.now.rs1 b.now.rs2 b.now.off i.now }
    {
        match i {
            Some(
                Instr::Branch {
                    cond,
                    rs1,
                    rs2,
                    off: aim,
                },
            ) => {
                let taken = target(x, b.off.get());
                let to = target(at, aim.get());
                rs1.get() == b.rs1.get()
                    && rs2.get() == b.rs2.get()
                    && ((same_cond(*cond, b.cond)
                        && self.stands(to, taken)
                        && self.stands(at + 4, x + 4))
                        || (same_cond(*cond, b.cond.opposite())
                            && self.stands(to, x + 4)
                            && self.stands(at + 4, taken)))
            }
            _ => false,
        }
    }
}

impl Alone<'_> {
    /// Whether a word renders the one at `x`, which reads as an instruction.
    #[tactic(auto, unfolding(crate::specs::Tests::row_test))]
    fn is_row(&self, at: u64, x: u64, word: u32, i: &Instr, now: u32) -> bool
        requires at { at + 8 < 2 ^ 64 }
        requires x { x + 4 < 2 ^ 64 }
        ensures { result ≡ row_test self.now.image.now self.now.layout.now at x word i.now now }
    {
        match *i {
            Instr::Auipc { rd, imm } => {
                if rd.get() == 0 {
                    self.is_kept(at, x, word, now)
                } else {
                    self.is_moved(at, x, rd, imm, &decode(now))
                }
            }
            Instr::Jal { rd, off } => self.is_jump(at, x, rd, off, &decode(now)),
            Instr::Jalr { rd, .. } => {
                (now == word || self.is_second(at, x, rd, &decode(now)))
                    && self.returns(at, rd, x + 4)
            }
            Instr::Branch {
                cond,
                rs1,
                rs2,
                off,
            } => {
                let b = Fork {
                    cond,
                    rs1,
                    rs2,
                    off,
                };
                self.is_branch(at, x, &b, &decode(now))
            }
            _ => self.is_kept(at, x, word, now),
        }
    }

    /// Whether the word at an address renders the one at `x`, a word of text that reads.
    #[tactic(auto, unfolding(crate::specs::Tests::start_test, crate::specs::Tests::start_over, crate::specs::Tests::start_by))]
    pub fn is_start(&self, at: u64, x: u64) -> bool
        requires { at + 8 < 2 ^ 64 }
        ensures { result ≡ start_test self.now.image.now self.now.layout.now at x }
    {
        self.image.kept();
        let Some(word) = self.image.word(x) else {
            return false;
        };
        let Some(i) = decode(word) else {
            return false;
        };
        let Some(now) = self.layout.word_at(at) else {
            return false;
        };
        self.is_row(at, x, word, &i, now)
    }

    /// Whether the word at an address is a jump to a Start of `x`.
    #[tactic(auto, unfolding(crate::specs::Tests::hop_test, crate::specs::Tests::hop_by))]
    pub fn is_hop(&self, at: u64, x: u64) -> bool
        ensures { result ≡ hop_test self.now.image.now self.now.layout.now at x }
    {
        match &self.read(at) {
            Some(Instr::Jal { rd, off }) => rd.get() == 0 && self.starts(target(at, off.get()), x),
            _ => false,
        }
    }

    /// Whether the word before an address is the first of two that make what an AUIPC at `x` makes.
    #[tactic(auto, unfolding(crate::specs::Tests::mid_test))]
    pub fn is_second_half(&self, at: u64, x: u64) -> bool
        ensures { result ≡ mid_test self.now.image.now self.now.layout.now at x }
    {
        4 <= at && starts_as(self.layout.point_at(at - 4), x) && makes_address(&self.original(x))
    }

    /// What the word of text at an address reads as.
    #[tactic(auto, unfolding(crate::specs::Points::read))]
    fn original(&self, x: u64) -> Option<Instr>
        ensures { result ≡ read (word_at self.now.image.now.texts) x }
    {
        let word = self.image.word(x)?;
        decode(word)
    }
}
