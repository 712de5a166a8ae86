//! The system calls by their numbers, and what they read.
ghost use Rattle.std.specs.Prelude.{◌≡◌, ◌≤◌, ◌+◌};
ghost use Rattle.guest_sys.specs.Services.{service_of, operation_of, arguments, registers, futex_registers, held, first_link, link_read};

use link_tags::value::{Tag, Value};

/// A system call.
#[derive(Clone, Copy, Debug, PartialEq, Eq)]
pub enum Service {
    Ioctl,
    Read,
    Write,
    Writev,
    Exit,
    ExitGroup,
    SetTidAddress,
    Futex,
    SetRobustList,
    SchedYield,
    RtSigaction,
    RtSigprocmask,
    Getpid,
    Gettid,
    Brk,
    Munmap,
    Clone,
    Mmap,
    Mprotect,
    /// A call that isn't served.
    Unknown,
}

/// What a futex call does.
#[derive(Clone, Copy, Debug, PartialEq, Eq)]
pub enum Operation {
    Wait,
    Wake,
    Requeue,
    /// An operation that isn't served.
    Other,
}

/// The call of a number.
#[tactic(auto, unfolding(crate::specs::Services::service_of))]
pub fn service_of(number: u64) -> Service
    ensures { result ≡ service_of number }
{
    match number {
        29 => Service::Ioctl,
        63 => Service::Read,
        64 => Service::Write,
        66 => Service::Writev,
        93 => Service::Exit,
        94 => Service::ExitGroup,
        96 => Service::SetTidAddress,
        98 => Service::Futex,
        99 => Service::SetRobustList,
        124 => Service::SchedYield,
        134 => Service::RtSigaction,
        135 => Service::RtSigprocmask,
        172 => Service::Getpid,
        178 => Service::Gettid,
        214 => Service::Brk,
        215 => Service::Munmap,
        220 => Service::Clone,
        222 => Service::Mmap,
        226 => Service::Mprotect,
        _ => Service::Unknown,
    }
}

/// The operation of a futex call by its second argument.
#[tactic(auto, unfolding(crate::specs::Services::operation_of))]
pub fn operation_of(flags: u64) -> Operation
    ensures { result ≡ operation_of flags }
{
    match flags & 0xffff_ffff_ffff_fe7f {
        0 => Operation::Wait,
        1 => Operation::Wake,
        3 => Operation::Requeue,
        _ => Operation::Other,
    }
}

// How many argument registers a futex call reads from x12 on.
fn futex_count(operation: Operation) -> usize
    ensures registers { futex_registers operation ≡ registers 12 result }
    ensures few { result ≤ 3 }
{
    match operation {
        Operation::Wait => 2,
        Operation::Wake => 1,
        Operation::Requeue => 3,
        Operation::Other => 0,
    }
}

// The first argument register that a call reads, and how many it reads, where x11 holds this number.
fn arguments(service: Service, x11: u64) -> (usize, usize)
    ensures registers { arguments service x11 ≡ registers (result.0) (result.1) }
    ensures first { 10 ≤ result.0 }
    ensures last { result.0 + result.1 ≤ 17 }
{
    match service {
        Service::Read | Service::Write | Service::Writev | Service::Mprotect => (10, 3),
        Service::Exit | Service::ExitGroup | Service::SetTidAddress | Service::Brk => (10, 1),
        Service::Munmap => (10, 2),
        Service::Futex => (10, 2 + futex_count(operation_of(x11))),
        Service::Clone => (10, 5),
        Service::Mmap => (11, 3),
        _ => (10, 0),
    }
}

// The first of some registers that holds a link.
fn first_link(regs: &[Value; 8], first: usize, count: usize) -> Option<u8>
    requires first { 10 ≤ first }
    requires last { first + count ≤ 17 }
    ensures { result ≡ first_link regs.now (registers first count) }
{
    for k in first..first + count {
        if let Tag::Link = regs[k - 10].tag {
            return Some(k as u8);
        }
    }
    None
}

/// The first register that a call reads and that holds a link, where `x10` to `x17` hold these values.
#[tactic(auto, unfolding(crate::specs::Services::link_read))]
pub fn link_read(regs: &[Value; 8]) -> Option<u8>
    ensures { result ≡ link_read regs.now }
{
    if let Tag::Link = regs[7].tag {
        return Some(17);
    }
    let (first, count) = arguments(service_of(regs[7].number), regs[1].number);
    first_link(regs, first, count)
}
