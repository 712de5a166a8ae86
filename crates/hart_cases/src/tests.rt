//! Guests of several harts, run from their texts under a schedule.
//!
//! A case is a schedule, as harts and their numbers of steps, and what is wanted: the outcome, what was written to output 1,
//! and what each hart does: L for live, W with its address for waiting, E for ended.

use cases::orders::number;
use cases::rows::expect;
use elf_make::make::make_elf;
use elf_read::read::read_elf;
use guest_mem::paged::PagedMem;
use guest_mem::store::GuestStore;
use hart::hart::Status;
use image::picture::Image;
use link_tags::origins::Same;
use machine::machine::Machine;
use machine::outcome::Outcome;
use relocs::build::build_image;
use rv_asm::assemble::assemble;
use rv_isa::instr::Width;
use std::alloc::{AllocError, Global};
use std::test::Fail;

/// A hart waits at a word, and the hart that it made wakes it. It is then answered 0, and writes A.
const HANDOVER: &str = "\
.func main
    lui x10,16
    addi x10,x10,256
    add x11,x0,x2
    addi x17,x0,220
    ecall
    lui x20,17
    beq x10,x0,child
    add x10,x0,x20
    addi x11,x0,0
    addi x12,x0,0
    addi x13,x0,0
    addi x17,x0,98
    ecall
    add x11,x0,x10
    addi x10,x11,65
    sb x10,8(x20)
    addi x10,x0,1
    addi x11,x20,8
    addi x12,x0,1
    addi x17,x0,64
    ecall
    addi x10,x0,7
    addi x17,x0,93
    ecall
child:
    addi x5,x0,1
    sw x5,0(x20)
    add x10,x0,x20
    addi x11,x0,1
    addi x12,x0,1
    addi x17,x0,98
    ecall
    addi x17,x0,93
    ecall
.end
.data
    .space 16
";

/// A hart reserves a block, tries to store there and writes how that went, 0 or 1, again and again. The hart that it
/// made makes accesses each of which may take the reservation away.
const RESERVE: &str = "\
.func main
    lui x20,17
    lui x10,16
    addi x10,x10,256
    add x11,x0,x2
    addi x17,x0,220
    ecall
    beq x10,x0,other
    addi x6,x0,48
    addi x7,x0,4
again:
    lr.d x5,(x20)
    sc.d x5,x7,(x20)
    add x5,x5,x6
    sb x5,64(x20)
    addi x10,x0,1
    addi x11,x20,64
    addi x12,x0,1
    addi x17,x0,64
    ecall
    jal x0,again
other:
    sw x0,8(x20)
    sc.w x5,x0,(x20)
    lr.w x5,(x20)
    sw x0,4(x20)
    lr.w x5,(x20)
    sc.w x5,x0,(x20)
    amoadd.w x5,x0,(x20)
    lb x5,0(x20)
    addi x10,x0,0
    addi x11,x20,3
    addi x12,x0,1
    addi x17,x0,63
    ecall
    addi x10,x0,0
    addi x11,x20,8
    addi x17,x0,63
    ecall
    jal x0,other
.end
.data
    .space 72
";

/// Reserves a block, reads a byte of the input into it, and exits with the answer of a store there.
const OWN_WRITE: &str = "\
.func main
    lui x20,17
    lr.d x5,(x20)
    addi x10,x0,0
    addi x11,x20,0
    addi x12,x0,1
    addi x17,x0,63
    ecall
    sc.d x10,x5,(x20)
    addi x17,x0,93
    ecall
.end
.data
    .space 72
";

/// Maps two pages, lets them be read alone, gives one up, and stores there.
const MAPPING: &str = "\
.func main
    addi x10,x0,0
    lui x11,2
    addi x12,x0,3
    addi x13,x0,0x22
    addi x17,x0,222
    ecall
    add x20,x0,x10
    sd x20,0(x20)
    ld x5,0(x20)
    addi x11,x0,1
    addi x12,x0,1
    addi x17,x0,226
    ecall
    ld x5,0(x20)
    add x10,x0,x20
    lui x11,1
    addi x17,x0,215
    ecall
    sd x20,0(x20)
.end
";

/// A hart waits, and the one that it made ends.
const STALLED: &str = "\
.func main
    lui x20,17
    lui x10,16
    addi x10,x10,256
    add x11,x0,x2
    addi x17,x0,220
    ecall
    bne x10,x0,first
    addi x10,x0,9
    addi x17,x0,93
    ecall
first:
    add x10,x0,x20
    addi x11,x0,128
    addi x12,x0,0
    addi x13,x0,0
    addi x17,x0,98
    ecall
    addi x10,x0,5
    addi x17,x0,93
    ecall
.end
.data
    .space 8
";

/// A hart waits at the word that the hart which it made clears at its end.
const ENDING: &str = "\
.func main
    lui x20,17
    lui x10,528
    addi x10,x10,256
    add x11,x0,x2
    add x14,x0,x20
    addi x17,x0,220
    ecall
    beq x10,x0,other
    addi x5,x0,7
    sw x5,0(x20)
    add x10,x0,x20
    addi x11,x0,0
    addi x12,x0,7
    addi x13,x0,0
    addi x17,x0,98
    ecall
    lw x10,0(x20)
    addi x10,x10,3
    addi x17,x0,93
    ecall
other:
    addi x10,x0,77
    addi x17,x0,93
    ecall
.end
.data
    .space 8
";

/// A hart makes two that wait at one word, and wakes one of them.
const ORDER: &str = "\
.func main
    lui x20,17
    lui x18,16
    addi x18,x18,256
    add x11,x0,x2
    addi x17,x0,220
    add x10,x0,x18
    ecall
    beq x10,x0,waits
    add x10,x0,x18
    ecall
    beq x10,x0,waits
    add x10,x0,x20
    addi x11,x0,1
    addi x12,x0,1
    addi x17,x0,98
    ecall
    jal x0,main
waits:
    add x10,x0,x20
    addi x11,x0,0
    addi x12,x0,0
    addi x13,x0,0
    addi x17,x0,98
    ecall
    ecall
.end
.data
    .space 8
";

/// A hart makes two that wait at one word, wakes one of them and lets the other wait at the next word, and then wakes it there.
const REQUEUE: &str = "\
.func main
    lui x20,17
    lui x18,16
    addi x18,x18,256
    add x11,x0,x2
    addi x17,x0,220
    add x10,x0,x18
    ecall
    beq x10,x0,waits
    add x10,x0,x18
    ecall
    beq x10,x0,waits
    add x10,x0,x20
    addi x11,x0,3
    addi x12,x0,1
    addi x13,x0,1
    addi x14,x20,4
    addi x17,x0,98
    ecall
    add x10,x0,x14
    addi x11,x0,1
    ecall
    jal x0,main
waits:
    add x10,x0,x20
    addi x11,x0,0
    addi x12,x0,0
    addi x13,x0,0
    addi x17,x0,98
    ecall
    ecall
.end
.data
    .space 8
";

/// Makes harts without end.
const MANY: &str = "\
.func main
    lui x18,16
    addi x18,x18,256
again:
    add x10,x0,x18
    add x11,x0,x2
    addi x17,x0,220
    ecall
    bne x10,x0,again
    jal x0,again
.end
";

/// The file of a text's program.
fn file_of(alloc: Global, text: &str) -> Result<Vec<u8>, Fail> {
    let text = text.as_bytes();
    if text.len() > 67_108_864 {
        return Err(Fail::new("too long"));
    }
    let Ok(program) = assemble(alloc, text) else {
        return Err(Fail::new("no program"));
    };
    Ok(make_elf(alloc, &program)?.into_vec())
}

/// The image of a text's program.
fn image_of(alloc: Global, text: &str) -> Result<Image, Fail> {
    let file = file_of(alloc, text)?;
    let Ok(parts) = read_elf(alloc, &file) else {
        return Err(Fail::new("no executable"));
    };
    let Ok(image) = build_image(alloc, &parts, None) else {
        return Err(Fail::new("no image"));
    };
    Ok(image)
}

/// The machine of an image at its start, with the input `abc`.
fn start(alloc: Global, image: &Image) -> Result<Machine, Fail> {
    let input = Vec::from_slice(alloc, b"abc")?;
    Ok(Machine::start(alloc, image, input)?)
}

/// What is answered to a case of a text's program.
fn answer_of<F>(alloc: Global, text: &str, case: &str, answer: &F) -> Result<String, Fail>
where
    F: Fn(Global, &Image, &str) -> Result<String, Fail>,
    requires { F.IsAlwaysCallable answer.now }
{
    let image = image_of(alloc, text)?;
    answer(alloc, &image, case)
}

/// Fails at the first case of a text's program, such as `0*5 = runs  LL`, to which another answer than the wanted one is given.
fn check<F>(alloc: Global, text: &str, cases: &str, answer: F) -> Result<(), Fail>
where
    F: Fn(Global, &Image, &str) -> Result<String, Fail>,
    requires { F.IsAlwaysCallable answer }
{
    for row in cases.lines() {
        let (case, wanted) = row.split_once(" = ").unwrap_or((row, ""));
        let got = answer_of(alloc, text, case, &answer)?;
        expect(alloc, row, got.as_str(), wanted)?;
    }
    Ok(())
}

/// Hart and number of steps of a visit such as `0*13`.
fn visit_of(visit: &str) -> (u32, u32) {
    let (hart, steps) = visit.split_once('*').unwrap_or(("", ""));
    (number(hart), number(steps))
}

/// Runs a machine by a schedule such as `0*13 1*7`.
fn run(machine: &mut Machine, image: &Image, schedule: &str) -> Result<(), Fail> {
    for visit in schedule.split_whitespace() {
        let (hart, steps) = visit_of(visit);
        machine.run(image, hart, u64::from(steps))?;
    }
    Ok(())
}

/// Adds how a run ended, if it did.
fn add_ending(text: &mut String, outcome: Option<Outcome>) -> Result<(), AllocError> {
    match outcome {
        None => text.push_str("runs"),
        Some(Outcome::Exit(status)) => write!(text, "exit {status}"),
        Some(Outcome::Trap { cause, pc, value }) => {
            write!(text, "trap {cause} at {pc:x} value {value:x}")
        }
        Some(Outcome::Stalled) => text.push_str("stalled"),
        Some(Outcome::HartsFull) => text.push_str("harts full"),
        Some(_) => text.push_str("ended otherwise"),
    }
}

fn add_output(text: &mut String, bytes: &[u8]) -> Result<(), AllocError> {
    for byte in bytes {
        text.push(char::from(*byte))?;
    }
    Ok(())
}

fn add_status(text: &mut String, status: Status) -> Result<(), AllocError> {
    match status {
        Status::Live => text.push_str("L"),
        Status::Waiting(at) => write!(text, "W{at:x}"),
        Status::Ended => text.push_str("E"),
    }
}

fn add_harts(text: &mut String, machine: &Machine) -> Result<(), AllocError> {
    for h in 0..machine.made() {
        add_status(text, machine.hart(h).status)?;
    }
    Ok(())
}

/// What became of a run.
fn state_of(alloc: Global, machine: &Machine) -> Result<String, AllocError> {
    let mut text = String::new(alloc);
    add_ending(&mut text, machine.outcome())?;
    text.push(' ')?;
    add_output(&mut text, machine.output(1))?;
    text.push(' ')?;
    add_harts(&mut text, machine)?;
    Ok(text)
}

fn state_after(
    alloc: Global,
    image: &Image,
    machine: &mut Machine,
    schedule: &str,
) -> Result<String, Fail> {
    run(machine, image, schedule)?;
    Ok(state_of(alloc, machine)?)
}

/// What becomes of a program under a schedule.
fn played(alloc: Global, image: &Image, schedule: &str) -> Result<String, Fail> {
    let mut machine = start(alloc, image)?;
    state_after(alloc, image, &mut machine, schedule)
}

const HANDOVER_CASES: &str = "\
0*13 = runs  W11000L
0*18 7*5 = runs  W11000L
0*13 1*8 = runs  W11000L
0*13 1*9 = runs  LL
0*13 1*20 = runs  LE
0*13 1*20 0*8 = runs A LE
0*13 1*20 0*30 = exit 7 A EE
0*5 1*9 0*8 = runs  LL
0*13 1*9 0*20 1*5 = exit 1 A EE
";

#[test]
fn a_hart_waits_until_it_is_woken(rt: HostRuntime) -> Result<(), Fail> {
    check(rt.alloc(), HANDOVER, HANDOVER_CASES, played)
}

const RESERVE_CASES: &str = "\
0*10 1*2 0*10 1*1 0*10 1*1 0*10 1*1 0*10 1*2 0*10 1*1 0*10 1*1 0*10 1*5 0*10 1*4 0*10 = runs 000111010 LL
";

#[test]
fn accesses_of_others_take_a_reservation_away(rt: HostRuntime) -> Result<(), Fail> {
    check(rt.alloc(), RESERVE, RESERVE_CASES, played)
}

const OWN_WRITE_CASES: &str = "\
0*20 = exit 1  E
";

#[test]
fn the_system_takes_the_callers_reservation_too(rt: HostRuntime) -> Result<(), Fail> {
    check(rt.alloc(), OWN_WRITE, OWN_WRITE_CASES, played)
}

const MAPPING_CASES: &str = "\
0*17 = runs  L
0*40 = trap 7 at 10048 value f7fe000  L
";

#[test]
fn memory_is_mapped_and_given_up(rt: HostRuntime) -> Result<(), Fail> {
    check(rt.alloc(), MAPPING, MAPPING_CASES, played)
}

const STALLED_CASES: &str = "\
0*13 = runs  W11000L
0*13 1*2 = runs  W11000L
0*13 1*4 = stalled  W11000E
0*6 1*4 = runs  LE
0*6 1*4 0*7 = stalled  W11000E
";

#[test]
fn a_run_stalls_where_all_that_are_left_wait(rt: HostRuntime) -> Result<(), Fail> {
    check(rt.alloc(), STALLED, STALLED_CASES, played)
}

const ENDING_CASES: &str = "\
0*16 1*3 = runs  W11000L
0*16 1*4 = runs  LE
0*16 1*4 0*4 = exit 3  EE
";

#[test]
fn a_hart_that_ends_wakes_who_waits_for_it(rt: HostRuntime) -> Result<(), Fail> {
    check(rt.alloc(), ENDING, ENDING_CASES, played)
}

const ORDER_CASES: &str = "\
0*10 1*7 2*7 = runs  LW11000W11000
0*10 1*7 2*7 0*6 = runs  LLW11000
0*10 2*7 1*7 0*6 = runs  LW11000L
";

#[test]
fn the_longest_waiting_is_woken(rt: HostRuntime) -> Result<(), Fail> {
    check(rt.alloc(), ORDER, ORDER_CASES, played)
}

const REQUEUE_CASES: &str = "\
0*10 1*7 2*7 = runs  LW11000W11000
0*10 1*7 2*7 0*8 = runs  LLW11004
0*10 1*7 2*7 0*11 = runs  LLL
0*10 2*7 1*7 0*8 = runs  LW11004L
";

#[test]
fn a_requeued_hart_waits_at_its_new_address(rt: HostRuntime) -> Result<(), Fail> {
    check(rt.alloc(), REQUEUE, REQUEUE_CASES, played)
}

const MANY_CASES: &str = "\
0*317 = runs  LLLLLLLLLLLLLLLLLLLLLLLLLLLLLLLLLLLLLLLLLLLLLLLLLLLLLLLLLLLLLLLL
0*1000 = harts full  LLLLLLLLLLLLLLLLLLLLLLLLLLLLLLLLLLLLLLLLLLLLLLLLLLLLLLLLLLLLLLLL
";

#[test]
fn harts_are_counted_up_to_their_limit(rt: HostRuntime) -> Result<(), Fail> {
    check(rt.alloc(), MANY, MANY_CASES, played)
}

/// Address of hart 0, number of links, and which of the first two harts are live.
fn harts_of(alloc: Global, machine: &Machine) -> Result<String, Fail> {
    if machine.made() == 0 {
        return Err(Fail::new("no hart"));
    }
    let links = machine.links(alloc)?.len();
    let (pc, first, second) = (machine.hart(0).pc, machine.is_live(0), machine.is_live(1));
    Ok(format!(in alloc; "{pc} {links} {first} {second}")?)
}

fn harts_with(alloc: Global, machine: &mut Machine, pc: u64) -> Result<String, Fail> {
    if machine.made() == 0 {
        return Err(Fail::new("no hart"));
    }
    let regs = machine.hart(0).regs;
    machine.set_hart(0, regs, pc);
    harts_of(alloc, machine)
}

/// What a machine tells of its harts once hart 0 was set to an address.
fn set(alloc: Global, image: &Image, pc: &str) -> Result<String, Fail> {
    let mut machine = start(alloc, image)?;
    harts_with(alloc, &mut machine, u64::from(number(pc)))
}

const SET_CASES: &str = "\
65560 = 65560 0 true false
";

#[test]
fn harts_and_links_can_be_set(rt: HostRuntime) -> Result<(), Fail> {
    check(rt.alloc(), STALLED, SET_CASES, set)
}

/// Adds the number in the 4 bytes at an address, read from the pages, or that it can't be read.
fn add_number(text: &mut String, memory: &PagedMem, at: u64) -> Result<(), AllocError> {
    match memory.load(at, Width::W, &Same) {
        Ok(value) => write!(text, "{}", value.number),
        Err(_) => text.push_str("none"),
    }
}

fn pages_of(alloc: Global, memory: &PagedMem) -> Result<String, AllocError> {
    let mut text = String::new(alloc);
    add_number(&mut text, memory, 0x11000)?;
    text.push(' ')?;
    add_number(&mut text, memory, 0)?;
    Ok(text)
}

fn pages_after(
    alloc: Global,
    image: &Image,
    machine: &mut Machine,
    schedule: &str,
) -> Result<String, Fail> {
    run(machine, image, schedule)?;
    Ok(pages_of(alloc, machine.memory())?)
}

/// What the pages have at 0x11000 and at 0 after a schedule.
fn paged(alloc: Global, image: &Image, schedule: &str) -> Result<String, Fail> {
    let mut machine = start(alloc, image)?;
    pages_after(alloc, image, &mut machine, schedule)
}

const PAGES_CASES: &str = "\
0*0 = 0 none
0*5 1*4 = 1 none
";

#[test]
fn the_pages_of_a_machine_have_what_its_harts_stored(rt: HostRuntime) -> Result<(), Fail> {
    check(rt.alloc(), HANDOVER, PAGES_CASES, paged)
}

/// A call, a return, a branch that isn't taken, and a jump that ends the run.
const JUMPS: &str = "\
.func main
    jal x1,f
    bne x0,x0,main
    jalr x0,0(x0)
.end
.func f
    jalr x0,0(x1)
.end
";

/// The transfer of a step of a hart, if it makes one.
fn transfer(machine: &mut Machine, image: &Image, h: u32) -> Result<Option<(u64, u64)>, Fail> {
    if machine.outcome().is_some() || !machine.is_live(h) || h >= machine.made() {
        return Ok(None);
    }
    let word = image.word(machine.hart(h).pc);
    let ran = machine.step_fetched(image, &Same, h, word)?;
    Ok(ran.transfer)
}

/// Adds the transfer of a step of a hart to a text.
fn add_transfer(
    text: &mut String,
    machine: &mut Machine,
    image: &Image,
    h: u32,
) -> Result<(), Fail> {
    if let Some((from, to)) = transfer(machine, image, h)? {
        write!(text, "{h}:{from:x}-{to:x} ")?;
    }
    Ok(())
}

/// Adds the transfers of a visit.
fn add_transfers(
    text: &mut String,
    machine: &mut Machine,
    image: &Image,
    visit: &str,
) -> Result<(), Fail> {
    let (hart, steps) = visit_of(visit);
    for _step in 0..steps {
        add_transfer(text, machine, image, hart)?;
    }
    Ok(())
}

fn transfers_of(
    alloc: Global,
    image: &Image,
    machine: &mut Machine,
    schedule: &str,
) -> Result<String, Fail> {
    let mut text = String::new(alloc);
    for visit in schedule.split_whitespace() {
        add_transfers(&mut text, machine, image, visit)?;
    }
    add_ending(&mut text, machine.outcome())?;
    Ok(text)
}

/// The transfers of a program under a schedule.
fn transferred(alloc: Global, image: &Image, schedule: &str) -> Result<String, Fail> {
    let mut machine = start(alloc, image)?;
    transfers_of(alloc, image, &mut machine, schedule)
}

const JUMPS_CASES: &str = "\
0*3 = 0:10000-1000c 0:1000c-10004 0:10004-10008 runs
0*9 = 0:10000-1000c 0:1000c-10004 0:10004-10008 trap 1 at 10008 value 0
";

#[test]
fn a_step_on_a_branch_or_a_jump_is_a_transfer(rt: HostRuntime) -> Result<(), Fail> {
    check(rt.alloc(), JUMPS, JUMPS_CASES, transferred)
}

const SIDES_CASES: &str = "\
0*13 1*20 = 0:10018-1001c 1:10018-10060 runs
";

#[test]
fn each_hart_takes_its_own_side_of_a_branch(rt: HostRuntime) -> Result<(), Fail> {
    check(rt.alloc(), HANDOVER, SIDES_CASES, transferred)
}
