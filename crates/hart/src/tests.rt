//! Instructions with values from the manual and from riscv-tests, and the order of traps and reports.
use crate::act::{Acted, act, private};
use crate::hart::{Hart, Status, finish_jump};
use guest_mem::flat::FlatMem;
use guest_mem::store::GuestStore;
use link_tags::origins::{Origins, Same};
use link_tags::value::{Tag, Value};
use oc_base::fault::NoMemory;
use oc_base::range::Range;
use rv_isa::fields::{Imm12, Imm20, OffB, OffJ, Reg, Shift};
use rv_isa::instr::{AluOp, AmoOp, Cond, ImmOp, Instr, Order, ShiftOp, Width};
use std::alloc::Global;
use std::test::Fail;

/// Every link goes back to one address.
struct One;

impl Origins for One {
    ghost origin = { λ _ _. 0x10028 };

    fn origin(&self, _at: u64) -> u64 {
        0x10028
    }
}

const PC: u64 = 0x10004;

const AT: u64 = 0x0ff0_0000;

const ORDER: Order = Order {
    aq: true,
    rl: false,
};

/// The registers of all cases: rs1 is x5, rs2 is x6, and rd is x7.
fn rs1() -> Reg {
    Reg::new(5).unwrap()
}

fn rs2() -> Reg {
    Reg::new(6).unwrap()
}

fn rd() -> Reg {
    Reg::new(7).unwrap()
}

/// A hart at PC whose rs1 and rs2 hold these values.
fn hart_with(a: Value, b: Value) -> Hart {
    let mut hart = Hart {
        regs: [Value::plain(0); 32],
        pc: PC,
        reservation: None,
        status: Status::Live,
        clear: 0,
    };
    hart.set_reg(rs1(), a);
    hart.set_reg(rs2(), b);
    hart
}

/// A memory with 32 bytes that may be read and written, 8 that may be read, and 8 that may be written.
fn memory(alloc: Global) -> Result<FlatMem, NoMemory> {
    let mut mem = FlatMem::new(alloc);
    let all = Range {
        from: AT,
        to: AT + 32,
    };
    let read = Range {
        from: AT + 32,
        to: AT + 40,
    };
    let write = Range {
        from: AT + 40,
        to: AT + 48,
    };
    mem.set_rights(all, true, true)?;
    mem.set_rights(read, true, false)?;
    mem.set_rights(write, false, true)?;
    Ok(mem)
}

/// `act`, where the instruction has a word.
fn acted<O: Origins>(hart: &mut Hart, mem: &mut FlatMem, origins: &O, i: Instr) -> Option<Acted> {
    if i.new_ok() {
        Some(act(hart, mem, origins, &i))
    } else {
        None
    }
}

/// What a register instruction leaves in rd, where it goes on to the next word.
fn computed(alloc: Global, a: u64, b: u64, i: Instr) -> Option<Value> {
    let mut hart = hart_with(Value::plain(a), Value::plain(b));
    let mut mem = FlatMem::new(alloc);
    let Some(Acted::Next) = acted(&mut hart, &mut mem, &Same, i) else {
        return None;
    };
    if hart.pc != PC + 4 {
        return None;
    }
    Some(hart.reg(rd()))
}

const MIN: u64 = 1 << 63;

const MAX: u64 = u64::MAX;

const ALU: [(AluOp, u64, u64, u64); 40] = [
    (
        AluOp::Add,
        0xffff_ffff_8000_0000,
        0xffff_ffff_ffff_8000,
        0xffff_ffff_7fff_8000,
    ),
    (AluOp::Add, MAX, 1, 0),
    (AluOp::Sub, 0, 0xffff_ffff_ffff_8000, 0x8000),
    (AluOp::Sll, 1, 63, MIN),
    (AluOp::Sll, 0x21, 64, 0x21),
    (AluOp::Slt, MAX, 1, 1),
    (AluOp::Slt, 1, MIN, 0),
    (AluOp::Sltu, MAX, 1, 0),
    (AluOp::Sltu, 1, MIN, 1),
    (AluOp::Xor, 0xff00_ff00, 0x0f0f_0f0f, 0xf00f_f00f),
    (AluOp::Srl, 0xffff_ffff_8000_0000, 1, 0x7fff_ffff_c000_0000),
    (AluOp::Sra, 0xffff_ffff_8000_0000, 31, MAX),
    (AluOp::Sra, 0x7fff_ffff_ffff_ffff, 63, 0),
    (AluOp::Or, 0xff00_ff00, 0x0f0f_0f0f, 0xff0f_ff0f),
    (AluOp::And, 0xff00_ff00, 0x0f0f_0f0f, 0x0f00_0f00),
    (
        AluOp::Mul,
        0xffff_ffff_8000_0000,
        0xffff_ffff_ffff_8000,
        0x4000_0000_0000,
    ),
    (AluOp::Mulh, MIN, MIN, 1 << 62),
    (AluOp::Mulhsu, MAX, MAX, MAX),
    (AluOp::Mulhu, MAX, MAX, 0xffff_ffff_ffff_fffe),
    (AluOp::Div, 0xffff_ffff_ffff_ffec, 6, 0xffff_ffff_ffff_fffd),
    (AluOp::Div, MIN, MAX, MIN),
    (AluOp::Div, 5, 0, MAX),
    (AluOp::Divu, 5, 0, MAX),
    (AluOp::Divu, 0xffff_ffff_ffff_ffec, 6, 3074457345618258599),
    (AluOp::Rem, 0xffff_ffff_ffff_ffec, 6, 0xffff_ffff_ffff_fffe),
    (AluOp::Rem, MIN, MAX, 0),
    (AluOp::Rem, 5, 0, 5),
    (AluOp::Remu, 5, 0, 5),
    (AluOp::Addw, 0x7fff_ffff, 1, 0xffff_ffff_8000_0000),
    (AluOp::Subw, 0x8000_0000, 1, 0x7fff_ffff),
    (AluOp::Sllw, 1, 31, 0xffff_ffff_8000_0000),
    (AluOp::Sllw, 1, 32, 1),
    (AluOp::Srlw, 0xffff_ffff_8000_0000, 1, 0x4000_0000),
    (AluOp::Sraw, 0x8000_0000, 31, MAX),
    (AluOp::Mulw, 0x10000, 0x8000, 0xffff_ffff_8000_0000),
    (AluOp::Divw, 0x8000_0000, 0xffff_ffff, 0xffff_ffff_8000_0000),
    (AluOp::Divuw, 5, 0, MAX),
    (AluOp::Divuw, 0xffff_ffff, 1, MAX),
    (AluOp::Remw, 0x8000_0000, 0xffff_ffff, 0),
    (AluOp::Remuw, 0x8000_0000, 0, 0xffff_ffff_8000_0000),
];

const IMM: [(ImmOp, u64, i32, u64); 10] = [
    (
        ImmOp::Addi,
        0xffff_ffff_8000_0000,
        -2048,
        0xffff_ffff_7fff_f800,
    ),
    (ImmOp::Addi, 5, 0, 5),
    (ImmOp::Slti, MAX, 0, 1),
    (ImmOp::Sltiu, 0, -1, 1),
    (ImmOp::Sltiu, MAX, -1, 0),
    (ImmOp::Xori, 0x00ff_0f00, -241, 0xffff_ffff_ff00_f00f),
    (ImmOp::Ori, 0x0ff0_0ff0, 240, 0x0ff0_0ff0),
    (ImmOp::Andi, 0x00ff_00ff, 1807, 15),
    (ImmOp::Addiw, 0x7fff_ffff, 1, 0xffff_ffff_8000_0000),
    (ImmOp::Addiw, 0x1_0000_0005, 0, 5),
];

const SHIFT: [(ShiftOp, u64, i32, u64); 7] = [
    (ShiftOp::Slli, 1, 63, MIN),
    (ShiftOp::Srli, MIN, 63, 1),
    (ShiftOp::Srai, MIN, 63, MAX),
    (ShiftOp::Slliw, 0x21, 31, 0xffff_ffff_8000_0000),
    (ShiftOp::Srliw, 0xffff_ffff_8000_0000, 31, 1),
    (ShiftOp::Sraiw, 0x8000_0000, 31, MAX),
    (ShiftOp::Sraiw, 0x7fff_ffff, 31, 0),
];

#[test]
fn arithmetic_gives_the_numbers_of_the_manual(rt: HostRuntime) {
    let alloc = rt.alloc();
    for (op, a, b, want) in ALU {
        let i = Instr::Alu {
            op,
            rd: rd(),
            rs1: rs1(),
            rs2: rs2(),
        };
        assert_eq!(rt; computed(alloc, a, b, i), Some(Value::plain(want)));
    }
    for (op, a, imm, want) in IMM {
        let Some(imm) = Imm12::new(imm) else {
            continue;
        };
        let i = Instr::AluImm {
            op,
            rd: rd(),
            rs1: rs1(),
            imm,
        };
        assert_eq!(rt; computed(alloc, a, 0, i), Some(Value::plain(want)));
    }
    for (op, a, by, want) in SHIFT {
        let Some(by) = Shift::new(by) else {
            continue;
        };
        let i = Instr::ShiftImm {
            op,
            rd: rd(),
            rs1: rs1(),
            by,
        };
        assert_eq!(rt; computed(alloc, a, 0, i), Some(Value::plain(want)));
    }
}

#[test]
fn upper_immediates_are_extended_by_their_sign(rt: HostRuntime) {
    let alloc = rt.alloc();
    let cases = [
        (1, 0x1000, PC + 0x1000),
        (0x7ffff, 0x7fff_f000, PC + 0x7fff_f000),
        (0x80000, 0xffff_ffff_8000_0000, 0xffff_ffff_8001_0004),
        (0xfffff, 0xffff_ffff_ffff_f000, PC - 0x1000),
    ];
    for (imm, lui, auipc) in cases {
        let Some(imm) = Imm20::new(imm) else {
            continue;
        };
        let i = Instr::Lui { rd: rd(), imm };
        assert_eq!(rt; computed(alloc, 0, 0, i), Some(Value::plain(lui)));
        let i = Instr::Auipc { rd: rd(), imm };
        assert_eq!(rt; computed(alloc, 0, 0, i), Some(Value::plain(auipc)));
    }
    let fence = Instr::Fence {
        rd: rd(),
        rs1: rs1(),
        imm: Imm12::new(0xff).unwrap(),
    };
    assert_eq!(rt; computed(alloc, 1, 2, fence), Some(Value::plain(0)));
}

/// A condition, a, b, and whether the branch is taken.
const BRANCHES: [(Cond, u64, u64, bool); 12] = [
    (Cond::Eq, 1, 1, true),
    (Cond::Eq, 1, MAX, false),
    (Cond::Ne, 1, MAX, true),
    (Cond::Ne, 1, 1, false),
    (Cond::Lt, MAX, 1, true),
    (Cond::Lt, 1, 1, false),
    (Cond::Ge, 1, 1, true),
    (Cond::Ge, MIN, 0, false),
    (Cond::Ltu, 1, MAX, true),
    (Cond::Ltu, MAX, 1, false),
    (Cond::Geu, MAX, 1, true),
    (Cond::Geu, 0, 1, false),
];

#[test]
fn branches_and_jumps_name_their_target(rt: HostRuntime) {
    let mut mem = FlatMem::new(rt.alloc());
    for (cond, a, b, taken) in BRANCHES {
        let mut hart = hart_with(Value::plain(a), Value::plain(b));
        let i = Instr::Branch {
            cond,
            rs1: rs1(),
            rs2: rs2(),
            off: OffB::new(-4096).unwrap(),
        };
        let jump = Acted::Jump {
            to: PC - 4096,
            by: Tag::Link,
            link: None,
        };
        let answer = acted(&mut hart, &mut mem, &Same, i);
        assert_eq!(rt; answer, Some(if taken { jump } else { Acted::Next }));
        assert_eq!(rt; hart.pc, if taken { PC } else { PC + 4 });
    }
    // rs1, the offset, and the target
    let jumps = [
        (Value::plain(0x10021), 4, 0x10024),
        (Value::plain(0x10020), -1, 0x1001e),
        (Value::plain(MAX), 3, 2),
        (Value::link(0x12014), 0, 0x12014),
    ];
    for (a, off, to) in jumps {
        let mut hart = hart_with(a, Value::plain(0));
        let Some(off) = Imm12::new(off) else {
            continue;
        };
        let i = Instr::Jalr {
            rd: rs1(),
            rs1: rs1(),
            off,
        };
        let want = Acted::Jump {
            to,
            by: a.tag,
            link: Some(rs1()),
        };
        assert_eq!(rt; acted(&mut hart, &mut mem, &Same, i), Some(want));
        assert_eq!(rt; hart.reg(rs1()), a);
        assert_eq!(rt; hart.pc, PC);
    }
}

#[test]
fn a_jump_ends_with_a_link_but_for_x0(rt: HostRuntime) {
    let mut mem = FlatMem::new(rt.alloc());
    let mut hart = hart_with(Value::plain(0), Value::plain(0));
    let i = Instr::Jal {
        rd: rd(),
        off: OffJ::new(0x100).unwrap(),
    };
    let want = Acted::Jump {
        to: PC + 0x100,
        by: Tag::Link,
        link: Some(rd()),
    };
    assert_eq!(rt; acted(&mut hart, &mut mem, &Same, i), Some(want));
    finish_jump(&mut hart, PC + 0x100, Some(rd()));
    assert_eq!(rt; hart.reg(rd()), Value::link(PC + 4));
    assert_eq!(rt; hart.pc, PC + 0x100);
    finish_jump(&mut hart, PC, Some(Reg::new(0).unwrap()));
    assert_eq!(rt; hart.reg(Reg::new(0).unwrap()), Value::plain(0));
    finish_jump(&mut hart, PC + 8, None);
    assert_eq!(rt; hart.reg(rd()), Value::link(PC + 4));
    assert_eq!(rt; hart.pc, PC + 8);
}

#[test]
fn loads_and_stores_move_links_and_see_original_numbers(rt: HostRuntime) -> Result<(), Fail> {
    let mut mem = memory(rt.alloc())?;
    let link = Value::link(0x12014);
    let mut hart = hart_with(Value::plain(AT + 4), link);
    let store = Instr::Store {
        width: Width::D,
        rs2: rs2(),
        rs1: rs1(),
        off: Imm12::new(-4).unwrap(),
    };
    let stored = Some(Acted::Stored { block: AT });
    assert_eq!(rt; acted(&mut hart, &mut mem, &One, store), stored);
    assert_eq!(rt; hart.pc, PC + 4);
    let loads = [
        (Width::D, 0, link),
        (Width::W, 0, Value::plain(0x10028)),
        (Width::Wu, 0, Value::plain(0x10028)),
        (Width::H, 2, Value::plain(1)),
        (Width::Hu, 0, Value::plain(0x28)),
        (Width::B, 0, Value::plain(40)),
        (Width::Bu, 2, Value::plain(1)),
    ];
    for (width, off, want) in loads {
        let Some(off) = Imm12::new(off - 4) else {
            continue;
        };
        let load = Instr::Load {
            width,
            rd: rd(),
            rs1: rs1(),
            off,
        };
        assert_eq!(rt; acted(&mut hart, &mut mem, &One, load), Some(Acted::Next));
        assert_eq!(rt; hart.reg(rd()), want);
    }
    // a byte over a link is no report; the word is then its original number with that byte
    let byte = Instr::Store {
        width: Width::B,
        rs2: rs2(),
        rs1: rs1(),
        off: Imm12::new(1).unwrap(),
    };
    assert_eq!(rt; acted(&mut hart, &mut mem, &One, byte), stored);
    assert_eq!(rt;
        mem.load(AT, Width::D, &One),
        Ok(Value::plain(0x2800_0001_0028))
    );
    // a load into x0 is lost, and a move keeps the tag
    let lost = Instr::Load {
        width: Width::D,
        rd: Reg::new(0).unwrap(),
        rs1: rs1(),
        off: Imm12::new(-4).unwrap(),
    };
    assert_eq!(rt; acted(&mut hart, &mut mem, &One, lost), Some(Acted::Next));
    assert_eq!(rt; hart.reg(Reg::new(0).unwrap()), Value::plain(0));
    let moved = Instr::AluImm {
        op: ImmOp::Addi,
        rd: rd(),
        rs1: rs2(),
        imm: Imm12::new(0).unwrap(),
    };
    assert_eq!(rt; acted(&mut hart, &mut mem, &One, moved), Some(Acted::Next));
    assert_eq!(rt; hart.reg(rd()), link);
    Ok(())
}

/// An operation, whether it is of 8 bytes, what stood in memory, b, what is stored, and what is loaded.
const AMOS: [(AmoOp, bool, u64, u64, u64, u64); 12] = [
    (AmoOp::Swap, true, 1, 2, 2, 1),
    (
        AmoOp::Swap,
        false,
        0x1_8000_0000,
        7,
        0x1_0000_0007,
        0xffff_ffff_8000_0000,
    ),
    (AmoOp::Add, true, MAX, 2, 1, MAX),
    (AmoOp::Add, false, 0xffff_ffff, 1, 0, MAX),
    (AmoOp::Xor, true, 0xff00, 0x0ff0, 0xf0f0, 0xff00),
    (AmoOp::And, true, 0xff00, 0x0ff0, 0x0f00, 0xff00),
    (AmoOp::Or, true, 0xff00, 0x0ff0, 0xfff0, 0xff00),
    (AmoOp::Min, true, MIN, 1, MIN, MIN),
    (AmoOp::Max, true, MIN, 1, 1, MIN),
    (AmoOp::Minu, true, MIN, 1, 1, MIN),
    (AmoOp::Maxu, true, MIN, 1, MIN, MIN),
    (AmoOp::Max, false, 0x8000_0000, 1, 1, 0xffff_ffff_8000_0000),
];

#[test]
fn atomic_operations_load_and_store(rt: HostRuntime) -> Result<(), Fail> {
    let mut mem = memory(rt.alloc())?;
    for (op, wide, old, b, stored, loaded) in AMOS {
        assert_eq!(rt;
            mem.store(AT + 8, Width::D, Value::plain(old), &Same),
            Ok(())
        );
        let mut hart = hart_with(Value::plain(AT + 8), Value::plain(b));
        hart.reservation = Some(AT + 8);
        let i = Instr::Amo {
            op,
            wide,
            order: ORDER,
            rd: rd(),
            rs1: rs1(),
            rs2: rs2(),
        };
        let want = Some(Acted::Stored { block: AT + 8 });
        assert_eq!(rt; acted(&mut hart, &mut mem, &Same, i), want);
        assert_eq!(rt; mem.load(AT + 8, Width::D, &Same), Ok(Value::plain(stored)));
        assert_eq!(rt; hart.reg(rd()), Value::plain(loaded));
        assert_eq!(rt; hart.reservation, Some(AT + 8));
    }
    Ok(())
}

#[test]
fn a_conditional_store_needs_its_block_and_gives_it_up(rt: HostRuntime) -> Result<(), Fail> {
    let mut mem = memory(rt.alloc())?;
    let nine = Value::plain(0xffff_ffff_8000_0009);
    assert_eq!(rt; mem.store(AT + 8, Width::D, nine, &Same), Ok(()));
    // where LR and SC are, whether they are of 8 bytes, and what LR loads, SC gives and memory holds
    let cases = [
        (AT + 8, AT + 8, true, nine.number, 0, 1),
        (AT + 12, AT + 8, false, MAX, 0, 0xffff_ffff_0000_0001),
        (AT + 12, AT + 12, false, MAX, 0, 0x1_8000_0009),
        (AT, AT + 8, true, 0, 1, nine.number),
    ];
    for (reserved, stored, wide, loaded, failed, holds) in cases {
        assert_eq!(rt; mem.store(AT + 8, Width::D, nine, &Same), Ok(()));
        let mut hart = hart_with(Value::plain(reserved), Value::plain(1));
        assert_eq!(rt;
            acted(&mut hart, &mut mem, &Same, lr(wide)),
            Some(Acted::Next)
        );
        assert_eq!(rt; hart.reg(rd()), Value::plain(loaded));
        assert_eq!(rt; hart.reservation, Some(reserved / 8 * 8));
        hart.set_reg(rs1(), Value::plain(stored));
        let want = if failed == 0 {
            Acted::Stored { block: AT + 8 }
        } else {
            Acted::Next
        };
        assert_eq!(rt; acted(&mut hart, &mut mem, &Same, sc(wide)), Some(want));
        assert_eq!(rt; hart.reg(rd()), Value::plain(failed));
        assert_eq!(rt; hart.reservation, None);
        assert_eq!(rt; mem.load(AT + 8, Width::D, &Same), Ok(Value::plain(holds)));
        // a second one finds nothing
        assert_eq!(rt;
            acted(&mut hart, &mut mem, &Same, sc(wide)),
            Some(Acted::Next)
        );
        assert_eq!(rt; hart.reg(rd()), Value::plain(1));
    }
    Ok(())
}

fn load_of(width: Width) -> Instr {
    Instr::Load {
        width,
        rd: rd(),
        rs1: rs1(),
        off: Imm12::new(0).unwrap(),
    }
}

fn store_of(width: Width) -> Instr {
    Instr::Store {
        width,
        rs2: rs2(),
        rs1: rs1(),
        off: Imm12::new(0).unwrap(),
    }
}

fn lr(wide: bool) -> Instr {
    Instr::Lr {
        wide,
        order: ORDER,
        rd: rd(),
        rs1: rs1(),
    }
}

fn sc(wide: bool) -> Instr {
    Instr::Sc {
        wide,
        order: ORDER,
        rd: rd(),
        rs1: rs1(),
        rs2: rs2(),
    }
}

fn swap(wide: bool) -> Instr {
    Instr::Amo {
        op: AmoOp::Swap,
        wide,
        order: ORDER,
        rd: rd(),
        rs1: rs1(),
        rs2: rs2(),
    }
}

fn add() -> Instr {
    Instr::Alu {
        op: AluOp::Add,
        rd: rd(),
        rs1: rs1(),
        rs2: rs2(),
    }
}

fn trap(cause: u8, value: u64) -> Acted {
    Acted::Trap { cause, value }
}

/// Bytes from AT + 32 on may be read alone, those from AT + 40 on written alone, and none from AT + 48 on.
#[test]
fn traps_and_reports_come_in_their_order_and_leave_the_hart(rt: HostRuntime) -> Result<(), Fail> {
    let mut mem = memory(rt.alloc())?;
    let link = Value::link(0x12014);
    let plain = Value::plain(1);
    assert_eq!(rt; mem.store(AT + 8, Width::D, link, &One), Ok(()));
    let zero = Imm12::new(0).unwrap();
    let four = Imm12::new(4).unwrap();
    let compare = Instr::Branch {
        cond: Cond::Eq,
        rs1: rs1(),
        rs2: rs2(),
        off: OffB::new(8).unwrap(),
    };
    let jump = Instr::Jalr {
        rd: rd(),
        rs1: rs1(),
        off: four,
    };
    let masked = Instr::AluImm {
        op: ImmOp::Andi,
        rd: rd(),
        rs1: rs1(),
        imm: zero,
    };
    let rows = [
        (Instr::Ebreak, plain, plain, trap(3, 0x10028)),
        (Instr::Ecall, link, link, Acted::Call),
        (
            load_of(Width::D),
            Value::plain(AT + 4),
            plain,
            trap(4, AT + 4),
        ),
        (
            load_of(Width::H),
            Value::plain(AT + 49),
            plain,
            trap(4, AT + 49),
        ),
        (
            load_of(Width::B),
            Value::plain(AT + 40),
            plain,
            trap(5, AT + 40),
        ),
        (
            load_of(Width::D),
            Value::plain(AT + 40),
            plain,
            trap(5, AT + 40),
        ),
        (
            store_of(Width::W),
            Value::plain(AT + 2),
            plain,
            trap(6, AT + 2),
        ),
        (
            store_of(Width::B),
            Value::plain(AT + 32),
            plain,
            trap(7, AT + 32),
        ),
        (lr(true), Value::plain(AT + 4), plain, trap(4, AT + 4)),
        (lr(false), Value::plain(AT + 40), plain, trap(5, AT + 40)),
        (sc(true), Value::plain(AT + 4), plain, trap(6, AT + 4)),
        (sc(false), Value::plain(AT + 32), plain, trap(7, AT + 32)),
        (swap(false), Value::plain(AT + 2), plain, trap(6, AT + 2)),
        (swap(true), Value::plain(AT + 32), plain, trap(7, AT + 32)),
        (swap(true), Value::plain(AT + 40), plain, trap(7, AT + 40)),
        (add(), link, plain, Acted::LinkUse { rule: 1 }),
        (add(), plain, link, Acted::LinkUse { rule: 1 }),
        (masked, link, plain, Acted::LinkUse { rule: 1 }),
        (compare, plain, link, Acted::LinkUse { rule: 2 }),
        (load_of(Width::D), link, plain, Acted::LinkUse { rule: 3 }),
        (store_of(Width::D), link, plain, Acted::LinkUse { rule: 3 }),
        (lr(true), link, plain, Acted::LinkUse { rule: 3 }),
        (sc(true), link, link, Acted::LinkUse { rule: 3 }),
        (
            sc(true),
            Value::plain(AT + 4),
            link,
            Acted::LinkUse { rule: 4 },
        ),
        (
            swap(true),
            Value::plain(AT + 49),
            link,
            Acted::LinkUse { rule: 4 },
        ),
        (
            lr(true),
            Value::plain(AT + 8),
            plain,
            Acted::LinkUse { rule: 4 },
        ),
        (
            lr(false),
            Value::plain(AT + 12),
            plain,
            Acted::LinkUse { rule: 4 },
        ),
        (
            sc(true),
            Value::plain(AT + 8),
            plain,
            Acted::LinkUse { rule: 4 },
        ),
        (
            swap(false),
            Value::plain(AT + 12),
            plain,
            Acted::LinkUse { rule: 4 },
        ),
        (jump, link, plain, Acted::LinkUse { rule: 6 }),
    ];
    for (i, a, b, want) in rows {
        let mut hart = hart_with(a, b);
        hart.reservation = Some(AT + 8);
        assert_eq!(rt; acted(&mut hart, &mut mem, &One, i), Some(want));
        assert_eq!(rt; hart.pc, PC);
        assert_eq!(rt; hart.reg(rd()), Value::plain(0));
        assert_eq!(rt; hart.reservation, Some(AT + 8));
        assert_eq!(rt; mem.load(AT + 8, Width::D, &One), Ok(link));
    }
    Ok(())
}

#[test]
fn instructions_without_memory_are_private(rt: HostRuntime) {
    let off = OffJ::new(0).unwrap();
    let jal = Instr::Jal { rd: rd(), off };
    let cases = [
        (jal, true),
        (load_of(Width::B), false),
        (store_of(Width::D), false),
        (lr(true), false),
        (sc(true), false),
        (swap(true), false),
        (Instr::Ecall, false),
        (Instr::Ebreak, false),
    ];
    for (i, want) in cases {
        assert_eq!(rt; private(&i), want);
    }
}
