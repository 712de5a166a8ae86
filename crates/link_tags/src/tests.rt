use crate::monitor::{LinkFault, use_of};
use crate::origins::{Origins, Same, original};
use crate::value::Value;
use rv_isa::fields::{Imm12, Imm20, OffB, OffJ, Reg, Shift};
use rv_isa::instr::{AluOp, AmoOp, Cond, ImmOp, Instr, Order, ShiftOp, Width};

/// Every link goes back to one address.
struct One;

impl Origins for One {
    ghost origin = { λ _ _. 0x10028 };

    fn origin(&self, _at: u64) -> u64 {
        0x10028
    }
}

/// What the monitor says with a link in rs1 = x5 alone, in rs2 = x6 alone, and in both.
#[test]
fn the_monitor_reports_the_first_use_by_rule_and_register(rt: HostRuntime) {
    let rd = Reg::new(7).unwrap();
    let rs1 = Reg::new(5).unwrap();
    let rs2 = Reg::new(6).unwrap();
    let zero = Imm12::new(0).unwrap();
    let four = Imm12::new(4).unwrap();
    let order = Order {
        aq: false,
        rl: true,
    };
    let cases = [
        (
            Instr::Alu {
                op: AluOp::Add,
                rd,
                rs1,
                rs2,
            },
            [(1, 5), (1, 6), (1, 5)],
        ),
        (
            Instr::Alu {
                op: AluOp::Remuw,
                rd,
                rs1,
                rs2,
            },
            [(1, 5), (1, 6), (1, 5)],
        ),
        (
            Instr::AluImm {
                op: ImmOp::Addi,
                rd,
                rs1,
                imm: zero,
            },
            [(0, 0), (0, 0), (0, 0)],
        ),
        (
            Instr::AluImm {
                op: ImmOp::Addi,
                rd,
                rs1,
                imm: four,
            },
            [(1, 5), (0, 0), (1, 5)],
        ),
        (
            Instr::AluImm {
                op: ImmOp::Ori,
                rd,
                rs1,
                imm: zero,
            },
            [(1, 5), (0, 0), (1, 5)],
        ),
        (
            Instr::AluImm {
                op: ImmOp::Addiw,
                rd,
                rs1,
                imm: zero,
            },
            [(1, 5), (0, 0), (1, 5)],
        ),
        (
            Instr::ShiftImm {
                op: ShiftOp::Slli,
                rd,
                rs1,
                by: Shift::new(0).unwrap(),
            },
            [(1, 5), (0, 0), (1, 5)],
        ),
        (
            Instr::Branch {
                cond: Cond::Geu,
                rs1,
                rs2,
                off: OffB::new(8).unwrap(),
            },
            [(2, 5), (2, 6), (2, 5)],
        ),
        (
            Instr::Load {
                width: Width::D,
                rd,
                rs1,
                off: zero,
            },
            [(3, 5), (0, 0), (3, 5)],
        ),
        (
            Instr::Store {
                width: Width::B,
                rs2,
                rs1,
                off: zero,
            },
            [(3, 5), (0, 0), (3, 5)],
        ),
        (
            Instr::Lr {
                wide: true,
                order,
                rd,
                rs1,
            },
            [(3, 5), (0, 0), (3, 5)],
        ),
        (
            Instr::Sc {
                wide: true,
                order,
                rd,
                rs1,
                rs2,
            },
            [(3, 5), (4, 6), (3, 5)],
        ),
        (
            Instr::Amo {
                op: AmoOp::Swap,
                wide: false,
                order,
                rd,
                rs1,
                rs2,
            },
            [(3, 5), (4, 6), (3, 5)],
        ),
        (Instr::Jalr { rd, rs1, off: zero }, [(0, 0), (0, 0), (0, 0)]),
        (Instr::Jalr { rd, rs1, off: four }, [(6, 5), (0, 0), (6, 5)]),
        (
            Instr::Lui {
                rd,
                imm: Imm20::new(1).unwrap(),
            },
            [(0, 0), (0, 0), (0, 0)],
        ),
        (
            Instr::Auipc {
                rd,
                imm: Imm20::new(1).unwrap(),
            },
            [(0, 0), (0, 0), (0, 0)],
        ),
        (
            Instr::Jal {
                rd,
                off: OffJ::new(8).unwrap(),
            },
            [(0, 0), (0, 0), (0, 0)],
        ),
        (
            Instr::Fence { rd, rs1, imm: zero },
            [(0, 0), (0, 0), (0, 0)],
        ),
        (Instr::Ecall, [(0, 0), (0, 0), (0, 0)]),
        (Instr::Ebreak, [(0, 0), (0, 0), (0, 0)]),
    ];
    let plain = Value::plain(3);
    let link = Value::link(0x10010);
    for (i, [first, second, both]) in cases {
        assert_eq!(rt; use_of(&i, plain, plain), None);
        assert_eq!(rt; use_of(&i, link, plain), fault(first));
        assert_eq!(rt; use_of(&i, plain, link), fault(second));
        assert_eq!(rt; use_of(&i, link, link), fault(both));
    }
}

/// A rule and a register; rule 0 stands for none.
fn fault(parts: (u8, u8)) -> Option<LinkFault> {
    if parts.0 == 0 {
        None
    } else {
        Some(LinkFault {
            rule: parts.0,
            reg: parts.1,
        })
    }
}

#[test]
fn a_program_sees_the_original_number_of_a_link(rt: HostRuntime) {
    let link = Value::link(0x12014);
    assert_eq!(rt; original(link, &One), 0x10028);
    assert_eq!(rt; original(link, &Same), 0x12014);
    assert_eq!(rt; original(Value::plain(0x12014), &One), 0x12014);
}
