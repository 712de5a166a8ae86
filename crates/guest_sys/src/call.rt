//! The system calls.
ghost use Rattle.std.specs.Prelude.{◌≡◌, ◌%◌};
ghost use Rattle.guest_mem.specs.Access.{seen};
ghost use Rattle.guest_sys.specs.Calls.{Does, Ends, asked, served};

use crate::answers::{Error, answer, failure, plain};
use crate::arguments::Arguments;
use crate::effect::{Effect, Reply};
use crate::files::{read, write, writev};
use crate::mapping::{brk, mmap, mprotect, munmap};
use crate::service::{Service, link_read, service_of};
use crate::state::Sys;
use crate::threads::clone;
use crate::waiting::{exit, futex_call};
use guest_mem::store::GuestStore;
use link_tags::origins::Origins;
use link_tags::value::Value;
use oc_base::fault::NoMemory;
use std::alloc::Global;

/// Serves the call that hart `h`, whose clear address is `clear`, makes by these values of `x10` to `x17`.
///
/// Where it is out of memory all is as it was.
#[tactic(auto, unfolding(crate::specs::Calls::asked))]
pub fn syscall<M: GuestStore, O: Origins>(
    alloc: Global,
    sys: &mut Sys,
    mem: &mut M,
    o: &O,
    h: u32,
    clear: u64,
    regs: &[Value; 8],
) -> Result<Effect, NoMemory>
    ensures { Ends (O.origin o.now) (asked (seen (O.origin o.now) (M.contents mem.old)) (M.contents mem.old).readable (M.contents mem.old).writable sys.old h clear regs.now) sys.old sys.new (M.contents mem.old) (M.contents mem.new) result }
{
    if let Some(reg) = link_read(regs) {
        return Ok(plain(alloc, Reply::LinkUse { reg }));
    }
    let service = service_of(regs[7].number);
    serve(alloc, sys, mem, o, h, clear, service, Arguments::of(regs))
}

/// Serves a call by its arguments.
fn serve<M: GuestStore, O: Origins>(
    alloc: Global,
    sys: &mut Sys,
    mem: &mut M,
    o: &O,
    h: u32,
    clear: u64,
    service: Service,
    a: Arguments,
) -> Result<Effect, NoMemory>
    ensures { Does (O.origin o.now) (λ see readable writable s. served see readable writable s h clear service a.a0 a.a1 a.a2 a.a3 a.a4) sys.old sys.new (M.contents mem.old) (M.contents mem.new) result }
{
    match service {
        Service::Read => read(alloc, sys, mem, o, a.a0, a.a1, a.a2),
        Service::Write => write(alloc, sys, mem, o, a.a0, a.a1, a.a2),
        Service::Writev => writev(alloc, sys, mem, o, a.a0, a.a1, a.a2),
        Service::Exit => exit(alloc, sys, mem, o, clear),
        Service::Futex => futex_call(alloc, sys, mem, o, h, a),
        Service::Brk => brk(alloc, sys, mem, a.a0),
        Service::Munmap => munmap(alloc, sys, mem, a.a0, a.a1),
        Service::Clone => clone(alloc, sys, mem, o, a),
        Service::Mmap => mmap(alloc, sys, mem, a.a1, a.a2, a.a3),
        Service::Mprotect => mprotect(alloc, sys, mem, a.a0, a.a1, a.a2),
        Service::ExitGroup => Ok(plain(alloc, Reply::EndAll((a.a0 % 256) as u8))),
        Service::SetTidAddress => Ok(plain(alloc, Reply::SetClear { clear: a.a0 })),
        Service::Getpid => Ok(answer(alloc, 1)),
        Service::Gettid => Ok(answer(alloc, u64::from(h) + 1)),
        Service::Ioctl => Ok(failure(alloc, Error::NoTerminal)),
        Service::Unknown => Ok(failure(alloc, Error::NotServed)),
        Service::SetRobustList
        | Service::SchedYield
        | Service::RtSigaction
        | Service::RtSigprocmask => Ok(answer(alloc, 0)),
    }
}
