//! The machine and its step.
ghost use Rattle.std.specs.Prelude.{◌≡◌, ◌<◌, ◌&&◌, ℕ, true, length, replicate, OnOk, OnErr, IfOk, not, is_some, Some, None, if◌then◌else◌};
ghost use Rattle.rv_isa.specs.Instr.{HasWord};
ghost use Rattle.hart.specs.Effects.{effect_of, answer_of};
ghost use Rattle.hart.specs.Harts.{with_reg};
ghost use Rattle.guest_mem.specs.Memory.{is_link_at};
ghost use Rattle.guest_mem.specs.Access.{links_of, with_link};
ghost use Rattle.guest_sys.specs.Calls.{output};
ghost use Rattle.guest_sys.specs.State.{IsOrderly};
ghost use Rattle.machine.specs.Harts.{is_live, hart_in, replied, woken, written_in};
ghost use Rattle.machine.specs.Sharing.{HasRoom, answered_by};
ghost use Rattle.machine.specs.Start.{start_of};
ghost use Rattle.machine.specs.Loaded.{IsLoaded};
ghost use Rattle.machine.specs.Steps.{with_hart, place_of, is_indirect, fault_of_jump, call_of, called, end_by, by_answer, affected, on_fetched, settled, can_step, original_step, original_run};
ghost use Rattle.machine.specs.Transfers.{transfers, transfer_on};

use crate::harts::{Harts, arguments_of};
use crate::outcome::Outcome;
use crate::start::{break_of, start_hart, start_memory};
use guest_mem::memory::GuestMem;
use guest_mem::store::GuestStore;
use guest_sys::call::syscall;
use guest_sys::effect::{Effect, Reply};
use guest_sys::state::Sys;
use hart::act::Acted;
use hart::hart::Hart;
use image::picture::Image;
use link_tags::origins::{Origins, Same, original};
use link_tags::value::{Tag, Value};
use oc_base::fault::NoMemory;
use rv_decode::decode;
use rv_isa::fields::Reg;
use rv_isa::instr::Instr;
use std::alloc::Global;
use std::marker::Model;

/// What a step was and left.
#[derive(Clone, Copy, Debug, PartialEq, Eq)]
pub struct Ran {
    /// How the run ended, once it has.
    pub outcome: Option<Outcome>,
    /// Where control went, by original addresses, if the step was one on a branch, taken or not, or a jump, and the run goes on:
    /// from the instruction, and to the one that comes next.
    pub transfer: Option<(u64, u64)>,
}

/// The machine of a guest.
#[derive(Drop)]
pub struct Machine {
    alloc: Global,
    harts: Harts,
    memory: GuestMem,
    system: Sys,
    outcome: Option<Outcome>,
}

impl Model for Machine {
    ghost use Rattle.std.specs.Prelude.{◌≡◌, length};
    ghost use Rattle.std.specs.Coded.{codes};
    ghost use Rattle.guest_mem.specs.Memory.{memory_code};
    ghost use Rattle.machine.specs.States.{State};

    ghost Value = { State };

    ghost coded = { Prim.hlevel (codes, memory_code) };

    ghost view = { λ m. record { harts = m.harts; memory = m.memory.contents; system = m.system; outcome = m.outcome } };

    ghost invariant = { λ m. length m.harts ≡ m.system.made };
}

/// Whether an instruction is a jump whose target a register names.
fn is_indirect(i: &Instr) -> bool
    ensures { result ≡ is_indirect i.now }
{
    matches!(*i, Instr::Jalr { .. })
}

/// Whether an instruction says by itself which one comes next: a branch or a jump.
#[inline(always)]
fn transfers(i: &Instr) -> bool
    ensures { result ≡ transfers i.now }
{
    matches!(
        *i,
        Instr::Branch { .. } | Instr::Jal { .. } | Instr::Jalr { .. }
    )
}

/// What ends the run in place of a jump to an original address, if anything does.
#[inline(always)]
fn fault_of_jump<O: Origins>(
    image: &Image,
    origins: &O,
    indirect: bool,
    pc: u64,
    to: u64,
    by: Tag,
) -> Option<Outcome>
    ensures { result ≡ fault_of_jump image.now indirect (O.origin origins.now pc) to by }
{
    if to % 4 != 0 {
        return Some(Outcome::Trap {
            cause: 0,
            pc: origins.origin(pc),
            value: to,
        });
    }
    if by == Tag::Plain && !image.in_text(to) {
        return Some(Outcome::Trap {
            cause: 1,
            pc: origins.origin(pc),
            value: to,
        });
    }
    if indirect && image.second_of_pair(to) {
        return Some(Outcome::Landing { pc: to });
    }
    None
}

/// What ends the run by the system's reply to hart `h`.
fn end_by<O: Origins>(harts: &Harts, origins: &O, h: u32, reply: Reply) -> Option<Outcome>
    requires { h < length harts.now }
    ensures { result ≡ end_by (O.origin origins.now) h reply harts.now }
{
    match reply {
        Reply::EndHart if harts.have_ended() => {
            let code = harts.at(h).regs[10].number % 256;
            Some(Outcome::Exit(code as u8))
        }
        Reply::EndAll(code) => Some(Outcome::Exit(code)),
        Reply::LinkUse { .. } => Some(Outcome::LinkUse {
            rule: 5,
            pc: origins.origin(harts.at(h).pc),
        }),
        Reply::OutputFull => Some(Outcome::OutputFull),
        Reply::HartsFull => Some(Outcome::HartsFull),
        Reply::EndHart
        | Reply::Answer(_)
        | Reply::Wait { .. }
        | Reply::Clone { .. }
        | Reply::SetClear { .. } => None,
    }
}

/// Does for the harts what a system call of hart `h` asks for, and gives what ends the run, if anything does.
fn finish_call<O: Origins>(
    harts: &mut Harts,
    origins: &O,
    h: u32,
    effect: &Effect,
) -> Option<Outcome>
    requires made { h < length harts.old }
    requires room { HasRoom effect.now.reply (length harts.old) }
    ensures harts { harts.new ≡ replied h effect.now.reply (woken effect.now.woken (written_in effect.now.written harts.old)) }
    ensures end { result ≡ end_by (O.origin origins.now) h effect.now.reply harts.new }
{
    harts.write_ranges(effect.written.as_slice());
    harts.wake(effect.woken.as_slice());
    harts.reply(h, effect.reply);
    end_by(harts, origins, h, effect.reply)
}

impl Machine {
    /// The machine before its first step, with what the guest will read as its input.
    #[tactic(auto, unfolding(crate::specs::Start::start_of))]
    pub fn start(alloc: Global, image: &Image, input: Vec<u8>) -> Result<Machine, NoMemory>
        ensures is { IfOk result (λ m. m ≡ start_of image.now input.items) }
        ensures loaded { IfOk result (λ m. IsLoaded image.now m.memory) }
    {
        let harts = Harts::start(alloc, start_hart(image))?;
        let memory = start_memory(alloc, image)?;
        Ok(Machine {
            alloc,
            harts,
            memory,
            system: Sys::new(alloc, input, break_of(image)),
            outcome: None,
        })
    }

    /// How the run ended, once it has.
    pub fn outcome(&self) -> Option<Outcome>
        ensures { result ≡ self.now.outcome }
    {
        self.outcome
    }

    /// What the guest has written to output 1 or 2.
    pub fn output(&self, k: u8) -> &[u8]
        ensures { result.now ≡ output self.now.system k }
    {
        self.system.output(k)
    }

    /// How many harts were made. Their numbers are those below.
    pub fn made(&self) -> u32
        ensures system { result ≡ self.now.system.made }
        ensures harts { result ≡ length self.now.harts }
    {
        self.system.made()
    }

    /// Whether a hart is live. One that isn't made is not.
    pub fn is_live(&self, h: u32) -> bool
        ensures { result ≡ is_live (hart_in self.now.harts h).status }
    {
        self.harts.is_live(h)
    }

    /// A hart that was made.
    pub fn hart(&self, h: u32) -> &Hart
        requires { h < length self.now.harts }
        ensures { result.now ≡ hart_in self.now.harts h }
    {
        self.harts.at(h)
    }

    /// Gives a hart other registers, and another word to go on with.
    pub fn set_hart(&mut self, h: u32, regs: [Value; 32], pc: u64)
        requires { h < length self.old.harts }
        ensures { self.new ≡ with_hart h (record (hart_in self.old.harts h) { regs = regs; pc = pc }) self.old }
    {
        self.harts.set(h, regs, pc);
    }

    /// Writes one register of a hart, and gives it another word to go on with.
    pub fn lead(&mut self, h: u32, rd: Reg, v: Value, pc: u64)
        requires { h < length self.old.harts }
        ensures { self.new ≡ with_hart h (record (hart_in self.old.harts h) { regs = with_reg (hart_in self.old.harts h).regs rd v; pc = pc }) self.old }
    {
        self.harts.lead(h, rd, v, pc);
    }

    /// The memory of the guest.
    pub fn memory(&self) -> &GuestMem
        ensures { result.now.contents ≡ self.now.memory }
    {
        &self.memory
    }

    /// The addresses of all links in memory with their numbers, ascending.
    pub fn links(&self, alloc: Global) -> Result<Vec<(u64, u64)>, NoMemory>
        ensures { IfOk result (λ v. v.items ≡ links_of self.now.memory) }
    {
        self.memory.links(alloc)
    }

    /// Gives the link in memory that holds the byte `at` another number. It takes no memory.
    pub fn set_link(&mut self, at: u64, number: u64)
        requires { is_link_at self.old.memory at ≡ true }
        ensures { self.new ≡ record self.old { memory = with_link self.old.memory at number } }
    {
        self.memory.set_link(at, number);
    }

    /// What the system keeps of every run, for a caller's proof. It does nothing.
    pub fn orderly(&self)
        ensures { IsOrderly self.now.system }
    {
        self.system.orderly();
    }

    /// A jump of hart `h` to `to`, by a plain number or a link.
    #[inline(always)]
    #[tactic(auto, unfolding(crate::specs::Steps::by_answer))]
    fn jump<O: Origins>(
        &mut self,
        image: &Image,
        origins: &O,
        h: u32,
        indirect: bool,
        to: u64,
        by: Tag,
        link: Option<Reg>,
    )
        requires { h < length self.old.harts }
        ensures { self.new ≡ by_answer (O.origin origins.now) image.now h indirect (Acted.Jump to by link) self.old }
    {
        let pc = self.harts.at(h).pc;
        let target = original(
            Value {
                number: to,
                tag: by,
            },
            origins,
        );
        match fault_of_jump(image, origins, indirect, pc, target, by) {
            None => self.harts.jump(h, to, link),
            Some(outcome) => self.outcome = Some(outcome),
        }
    }

    /// The original address of hart `h`'s instruction.
    fn place<O: Origins>(&self, origins: &O, h: u32) -> u64
        requires { h < length self.now.harts }
        ensures { result ≡ O.origin origins.now (hart_in self.now.harts h).pc }
    {
        origins.origin(self.harts.at(h).pc)
    }

    /// A system call of hart `h`. After want of memory all is as before.
    #[inline(never)]
    #[tactic(auto, unfolding(crate::specs::Steps::called, crate::specs::Steps::call_of))]
    fn call<O: Origins>(&mut self, origins: &O, h: u32) -> Result<(), NoMemory>
        requires { h < length self.old.harts }
        ensures ok { OnOk result (self.new ≡ called (O.origin origins.now) h (call_of (O.origin origins.now) h self.old) self.old) }
        ensures err { OnErr result (self.new ≡ self.old) }
    {
        let clear = self.harts.at(h).clear;
        let arguments = arguments_of(self.harts.at(h));
        let Ok(effect) = syscall(
            self.alloc,
            &mut self.system,
            &mut self.memory,
            origins,
            h,
            clear,
            &arguments,
        ) else {
            return Err(NoMemory);
        };
        self.system.orderly();
        self.outcome = finish_call(&mut self.harts, origins, h, &effect);
        self.harts.set_waiting(self.system.waiting());
        Ok(())
    }

    /// One instruction of hart `h`: only a call can stall the run. After want of memory all is as before.
    #[inline(always)]
    #[tactic(auto, unfolding(crate::specs::Sharing::answered_by, crate::specs::Steps::by_answer))]
    fn act<O: Origins>(
        &mut self,
        image: &Image,
        origins: &O,
        h: u32,
        i: &Instr,
    ) -> Result<(), NoMemory>
        requires made { h < length self.old.harts }
        requires word { HasWord i.now }
        ensures ok { OnOk result (let e = effect_of (O.origin origins.now) self.old.memory (hart_in self.old.harts h) i.now in self.new ≡ answered_by (O.origin origins.now) image.now h (is_indirect i.now) (answer_of e) (affected (O.origin origins.now) h e self.old)) }
        ensures err { OnErr result (self.new ≡ self.old) }
    {
        match self.harts.act(h, &mut self.memory, origins, i) {
            Acted::Next => {}
            Acted::Stored { block } => self.harts.write(h, block),
            Acted::Jump { to, by, link } => {
                self.jump(image, origins, h, is_indirect(i), to, by, link);
            }
            Acted::Call => {
                let Ok(()) = self.call(origins, h) else {
                    return Err(NoMemory);
                };
                self.settle(h);
            }
            Acted::Trap { cause, value } => {
                let pc = self.place(origins, h);
                self.outcome = Some(Outcome::Trap { cause, pc, value });
            }
            Acted::LinkUse { rule } => {
                let pc = self.place(origins, h);
                self.outcome = Some(Outcome::LinkUse { rule, pc });
            }
            Acted::NoMemory => return Err(NoMemory),
        }
        Ok(())
    }

    /// The transfer that hart `h` made by an instruction that stood at `from`, if it made one.
    #[inline(always)]
    fn transfer<O: Origins>(&self, origins: &O, h: u32, from: u64, i: &Instr) -> Option<(u64, u64)>
        requires { transfers i.now ≡ true → h < length self.now.harts }
        ensures { result ≡ (if transfers i.now && not (is_some self.now.outcome) then Some (O.origin origins.now from, place_of (O.origin origins.now) h self.now) else None) }
    {
        if transfers(i) && self.outcome.is_none() {
            return Some((origins.origin(from), self.place(origins, h)));
        }
        None
    }

    /// One step of live hart `h` on the word that was fetched for it, and the transfer that it made, if it made one.
    #[inline(always)]
    #[tactic(auto, unfolding(crate::specs::Steps::on_fetched, crate::specs::Steps::settled))]
    fn obey<O: Origins>(
        &mut self,
        image: &Image,
        origins: &O,
        h: u32,
        word: Option<u32>,
    ) -> Result<Option<(u64, u64)>, NoMemory>
        requires made { h < length self.old.harts }
        requires live { can_step h self.old ≡ true }
        ensures transfer { IfOk result (λ made. made ≡ transfer_on (O.origin origins.now) h word self.old self.new) }
        ensures ok { OnOk result (self.new ≡ settled (on_fetched (O.origin origins.now) image.now h word self.old)) }
        ensures err { OnErr result (self.new ≡ self.old) }
    {
        let Some(word) = word else {
            let pc = self.place(origins, h);
            self.outcome = Some(Outcome::Trap {
                cause: 1,
                pc,
                value: pc,
            });
            return Ok(None);
        };
        let Some(i) = decode(word) else {
            let pc = self.place(origins, h);
            self.outcome = Some(Outcome::Trap {
                cause: 2,
                pc,
                value: u64::from(word),
            });
            return Ok(None);
        };
        let from = self.harts.at(h).pc;
        let Ok(()) = self.act(image, origins, h, &i) else {
            return Err(NoMemory);
        };
        Ok(self.transfer(origins, h, from, &i))
    }

    /// Ends the run where no hart can go on. Only where hart `h` can't are the others looked at.
    #[tactic(auto, unfolding(crate::specs::Steps::settled))]
    fn settle(&mut self, h: u32)
        ensures { self.new ≡ settled self.old }
    {
        if self.harts.is_live(h) {
            return;
        }
        if self.outcome.is_none() && self.harts.is_stalled() {
            self.outcome = Some(Outcome::Stalled);
        }
    }

    /// One step of a live hart on the word that was fetched for it; no word is a fetch outside the text. After want of memory all is
    /// as before.
    #[inline(always)]
    pub fn step_fetched<O: Origins>(
        &mut self,
        image: &Image,
        origins: &O,
        h: u32,
        word: Option<u32>,
    ) -> Result<Ran, NoMemory>
        requires { can_step h self.old ≡ true }
        ensures step { OnOk result (self.new ≡ settled (on_fetched (O.origin origins.now) image.now h word self.old)) }
        ensures outcome { IfOk result (λ ran. ran.outcome ≡ self.new.outcome) }
        ensures transfer { IfOk result (λ ran. ran.transfer ≡ transfer_on (O.origin origins.now) h word self.old self.new) }
        ensures err { OnErr result (self.new ≡ self.old) }
    {
        let Ok(transfer) = self.obey(image, origins, h, word) else {
            return Err(NoMemory);
        };
        Ok(Ran {
            outcome: self.outcome,
            transfer,
        })
    }

    /// Whether hart `h` can make a step.
    fn can_step(&self, h: u32) -> bool
        ensures value { result ≡ can_step h self.now }
        ensures made { result ≡ true → h < length self.now.harts }
    {
        self.outcome.is_none() && self.harts.is_live(h)
    }

    /// One step of hart `h`, and the outcome after it. A hart that waits, has ended or isn't made changes nothing, and
    /// after an outcome none does. After want of memory all is as before.
    #[tactic(auto, unfolding(crate::specs::Steps::original_step, crate::specs::Steps::step_with))]
    pub fn real_original(&mut self, image: &Image, h: u32) -> Result<Option<Outcome>, NoMemory>
        ensures step { OnOk result (self.new ≡ original_step image.now h self.old) }
        ensures outcome { IfOk result (λ outcome. outcome ≡ self.new.outcome) }
        ensures err { OnErr result (self.new ≡ self.old) }
    {
        if self.can_step(h) {
            let word = image.word(self.harts.at(h).pc);
            let Ok(ran) = self.step_fetched(image, &Same, h, word) else {
                return Err(NoMemory);
            };
            return Ok(ran.outcome);
        }
        Ok(self.outcome)
    }

    /// So many steps of hart `h`. After want of memory some of them are made.
    pub fn run(&mut self, image: &Image, h: u32, steps: u64) -> Result<(), NoMemory>
        ensures ok { OnOk result (self.new ≡ original_run image.now (replicate steps h) self.old) }
        ensures err { OnErr result ((n : ℕ) × (n < steps) × (self.new ≡ original_run image.now (replicate n h) self.old)) }
    {
        for _step in 0..steps {
            if self.real_original(image, h)?.is_some() {
                return Ok(());
            }
        }
        Ok(())
    }
}
