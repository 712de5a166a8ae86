//! Words made by stock assemblers, and again from the manual's field listing by a script, beside what they mean.
ghost use Rattle.std.specs.Prelude.{◌<◌};

use super::*;
use rv_isa::fields::{Imm12, Imm20, OffB, OffJ, Reg};
use rv_isa::instr::{AluOp, AmoOp, Cond, ImmOp, Order, Width};

fn x(n: u8) -> Reg
    requires { n < 32 }
{
    Reg::new(n).unwrap()
}

/// The immediate, distance or amount.
fn number(i: Instr) -> Option<i32> {
    match i {
        Instr::AluImm { imm, .. } => Some(imm.get()),
        Instr::ShiftImm { by, .. } => Some(by.get()),
        Instr::Lui { imm, .. } => Some(imm.get()),
        Instr::Auipc { imm, .. } => Some(imm.get()),
        Instr::Jal { off, .. } => Some(off.get()),
        Instr::Jalr { off, .. } => Some(off.get()),
        Instr::Branch { off, .. } => Some(off.get()),
        Instr::Load { off, .. } => Some(off.get()),
        Instr::Store { off, .. } => Some(off.get()),
        _ => None,
    }
}

/// `add x5,x6,x7` and the like.
#[test]
fn register_operations(rt: HostRuntime) {
    let cases = [
        (0x0073_02b3u32, AluOp::Add),
        (0x4073_02b3, AluOp::Sub),
        (0x0073_12b3, AluOp::Sll),
        (0x0073_22b3, AluOp::Slt),
        (0x0073_32b3, AluOp::Sltu),
        (0x0073_42b3, AluOp::Xor),
        (0x0073_52b3, AluOp::Srl),
        (0x4073_52b3, AluOp::Sra),
        (0x0073_62b3, AluOp::Or),
        (0x0073_72b3, AluOp::And),
        (0x0273_02b3, AluOp::Mul),
        (0x0273_12b3, AluOp::Mulh),
        (0x0273_22b3, AluOp::Mulhsu),
        (0x0273_32b3, AluOp::Mulhu),
        (0x0273_42b3, AluOp::Div),
        (0x0273_52b3, AluOp::Divu),
        (0x0273_62b3, AluOp::Rem),
        (0x0273_72b3, AluOp::Remu),
        (0x0073_02bb, AluOp::Addw),
        (0x4073_02bb, AluOp::Subw),
        (0x0073_12bb, AluOp::Sllw),
        (0x0073_52bb, AluOp::Srlw),
        (0x4073_52bb, AluOp::Sraw),
        (0x0273_02bb, AluOp::Mulw),
        (0x0273_42bb, AluOp::Divw),
        (0x0273_52bb, AluOp::Divuw),
        (0x0273_62bb, AluOp::Remw),
        (0x0273_72bb, AluOp::Remuw),
    ];
    for (word, op) in cases {
        let i = Instr::Alu {
            op,
            rd: x(5),
            rs1: x(6),
            rs2: x(7),
        };
        assert_eq!(rt; decode(word), Some(i), "{word:#x}");
    }
}

/// `addi x8,x9,-1234` and the like.
#[test]
fn immediate_operations(rt: HostRuntime) {
    let cases = [
        (0xb2e4_8413u32, ImmOp::Addi),
        (0xb2e4_a413, ImmOp::Slti),
        (0xb2e4_b413, ImmOp::Sltiu),
        (0xb2e4_c413, ImmOp::Xori),
        (0xb2e4_e413, ImmOp::Ori),
        (0xb2e4_f413, ImmOp::Andi),
        (0xb2e4_841b, ImmOp::Addiw),
    ];
    for (word, op) in cases {
        let i = Instr::AluImm {
            op,
            rd: x(8),
            rs1: x(9),
            imm: Imm12::new(-1234).unwrap(),
        };
        assert_eq!(rt; decode(word), Some(i), "{word:#x}");
    }
}

/// `slli x10,x11,63` and the like, with the amounts that stand beside the operation.
#[test]
fn shifts_by_an_amount(rt: HostRuntime) {
    let cases = [
        (0x03f5_9513u32, ShiftOp::Slli, 63),
        (0x0215_d513, ShiftOp::Srli, 33),
        (0x43e5_d513, ShiftOp::Srai, 62),
        (0x01f5_951b, ShiftOp::Slliw, 31),
        (0x0115_d51b, ShiftOp::Srliw, 17),
        (0x41e5_d51b, ShiftOp::Sraiw, 30),
    ];
    for (word, op, by) in cases {
        let i = Instr::ShiftImm {
            op,
            rd: x(10),
            rs1: x(11),
            by: Shift::new(by).unwrap(),
        };
        assert_eq!(rt; decode(word), Some(i), "{word:#x}");
    }
}

/// `beq x12,x13,-2730` and the like.
#[test]
fn branches(rt: HostRuntime) {
    let cases = [
        (0xd4d6_0b63u32, Cond::Eq),
        (0xd4d6_1b63, Cond::Ne),
        (0xd4d6_4b63, Cond::Lt),
        (0xd4d6_5b63, Cond::Ge),
        (0xd4d6_6b63, Cond::Ltu),
        (0xd4d6_7b63, Cond::Geu),
    ];
    for (word, cond) in cases {
        let i = Instr::Branch {
            cond,
            rs1: x(12),
            rs2: x(13),
            off: OffB::new(-2730).unwrap(),
        };
        assert_eq!(rt; decode(word), Some(i), "{word:#x}");
    }
}

/// `lb x14,-683(x15)` and the like.
#[test]
fn loads(rt: HostRuntime) {
    let cases = [
        (0xd557_8703u32, Width::B),
        (0xd557_9703, Width::H),
        (0xd557_a703, Width::W),
        (0xd557_b703, Width::D),
        (0xd557_c703, Width::Bu),
        (0xd557_d703, Width::Hu),
        (0xd557_e703, Width::Wu),
    ];
    for (word, width) in cases {
        let i = Instr::Load {
            width,
            rd: x(14),
            rs1: x(15),
            off: Imm12::new(-683).unwrap(),
        };
        assert_eq!(rt; decode(word), Some(i), "{word:#x}");
    }
}

/// `sb x16,1365(x17)` and the like.
#[test]
fn stores(rt: HostRuntime) {
    let cases = [
        (0x5508_8aa3u32, Width::B),
        (0x5508_9aa3, Width::H),
        (0x5508_aaa3, Width::W),
        (0x5508_baa3, Width::D),
    ];
    for (word, width) in cases {
        let i = Instr::Store {
            width,
            rs2: x(16),
            rs1: x(17),
            off: Imm12::new(1365).unwrap(),
        };
        assert_eq!(rt; decode(word), Some(i), "{word:#x}");
    }
}

/// `lr.w x18,(x19)` and `sc.w x20,x22,(x21)` in both widths and each order. The SC's word is after the LR's.
#[test]
fn reservations(rt: HostRuntime) {
    let cases = [
        (0x1009_a92fu32, 0x196a_aa2f, false, false, false),
        (0x1409_a92f, 0x1d6a_aa2f, false, true, false),
        (0x1209_a92f, 0x1b6a_aa2f, false, false, true),
        (0x1609_a92f, 0x1f6a_aa2f, false, true, true),
        (0x1009_b92f, 0x196a_ba2f, true, false, false),
        (0x1409_b92f, 0x1d6a_ba2f, true, true, false),
        (0x1209_b92f, 0x1b6a_ba2f, true, false, true),
        (0x1609_b92f, 0x1f6a_ba2f, true, true, true),
    ];
    for (word, second, wide, aq, rl) in cases {
        let order = Order { aq, rl };
        let lr = Instr::Lr {
            wide,
            order,
            rd: x(18),
            rs1: x(19),
        };
        assert_eq!(rt; decode(word), Some(lr), "{word:#x}");
        let sc = Instr::Sc {
            wide,
            order,
            rd: x(20),
            rs1: x(21),
            rs2: x(22),
        };
        assert_eq!(rt; decode(second), Some(sc), "{second:#x}");
    }
}

/// `amoswap.w x23,x25,(x24)` and the like: the operation, whether it moves 8 bytes, and the order.
#[test]
fn memory_operations(rt: HostRuntime) {
    let cases = [
        (0x099c_2bafu32, AmoOp::Swap, false, false, false),
        (0x019c_2baf, AmoOp::Add, false, false, false),
        (0x219c_2baf, AmoOp::Xor, false, false, false),
        (0x619c_2baf, AmoOp::And, false, false, false),
        (0x419c_2baf, AmoOp::Or, false, false, false),
        (0x819c_2baf, AmoOp::Min, false, false, false),
        (0xa19c_2baf, AmoOp::Max, false, false, false),
        (0xc19c_2baf, AmoOp::Minu, false, false, false),
        (0xe19c_2baf, AmoOp::Maxu, false, false, false),
        (0x099c_3baf, AmoOp::Swap, true, false, false),
        (0x019c_3baf, AmoOp::Add, true, false, false),
        (0x219c_3baf, AmoOp::Xor, true, false, false),
        (0x619c_3baf, AmoOp::And, true, false, false),
        (0x419c_3baf, AmoOp::Or, true, false, false),
        (0x819c_3baf, AmoOp::Min, true, false, false),
        (0xa19c_3baf, AmoOp::Max, true, false, false),
        (0xc19c_3baf, AmoOp::Minu, true, false, false),
        (0xe19c_3baf, AmoOp::Maxu, true, false, false),
        (0x0d9c_2baf, AmoOp::Swap, false, true, false),
        (0x039c_3baf, AmoOp::Add, true, false, true),
        (0xe79c_3baf, AmoOp::Maxu, true, true, true),
    ];
    for (word, op, wide, aq, rl) in cases {
        let i = Instr::Amo {
            op,
            wide,
            order: Order { aq, rl },
            rd: x(23),
            rs1: x(24),
            rs2: x(25),
        };
        assert_eq!(rt; decode(word), Some(i), "{word:#x}");
    }
}

/// The instructions with a row of their own.
#[test]
fn single_rows(rt: HostRuntime) {
    let cases = [
        (
            0x1234_5d37u32,
            Instr::Lui {
                rd: x(26),
                imm: Imm20::new(0x12345).unwrap(),
            },
        ), // lui x26,0x12345
        (
            0x8000_0d97,
            Instr::Auipc {
                rd: x(27),
                imm: Imm20::new(0x80000).unwrap(),
            },
        ), // auipc x27,0x80000
        (
            0x400f_0ee7,
            Instr::Jalr {
                rd: x(29),
                rs1: x(30),
                off: Imm12::new(1024).unwrap(),
            },
        ), // jalr x29,1024(x30)
        (0x0000_0073, Instr::Ecall), // ecall
        (0x0010_0073, Instr::Ebreak), // ebreak
        (
            0x0050_0093,
            Instr::AluImm {
                op: ImmOp::Addi,
                rd: x(1),
                rs1: x(0),
                imm: Imm12::new(5).unwrap(),
            },
        ), // addi x1,x0,5
        (
            0x0080_00ef,
            Instr::Jal {
                rd: x(1),
                off: OffJ::new(8).unwrap(),
            },
        ), // jal x1,+8
        (
            0x1005_32af,
            Instr::Lr {
                wide: true,
                order: Order {
                    aq: false,
                    rl: false,
                },
                rd: x(5),
                rs1: x(10),
            },
        ), // lr.d x5,(x10)
        (
            0x0ff0_000f,
            Instr::Fence {
                rd: x(0),
                rs1: x(0),
                imm: Imm12::new(255).unwrap(),
            },
        ), // fence
        (
            0x0330_000f,
            Instr::Fence {
                rd: x(0),
                rs1: x(0),
                imm: Imm12::new(51).unwrap(),
            },
        ), // fence rw,rw
        (
            0x8330_000f,
            Instr::Fence {
                rd: x(0),
                rs1: x(0),
                imm: Imm12::new(-1997).unwrap(),
            },
        ), // fence.tso
        (
            0xfff1_8f8f,
            Instr::Fence {
                rd: x(31),
                rs1: x(3),
                imm: Imm12::new(-1).unwrap(),
            },
        ), // reserved fields
    ];
    for (word, i) in cases {
        assert_eq!(rt; decode(word), Some(i), "{word:#x}");
    }
}

/// The immediate or distance of each word, at the ends of its range and at each of its pieces.
#[test]
fn immediates(rt: HostRuntime) {
    let cases = [
        (0x8001_0093u32, -2048), // addi x1,x2,-2048
        (0x7ff1_0093, 2047), // addi x1,x2,2047
        (0xfff1_0093, -1), // addi x1,x2,-1
        (0x0001_0093, 0), // addi x1,x2,0
        (0xd557_b703, -683), // ld x14,-683(x15)
        (0x8001_3083, -2048), // ld x1,-2048(x2)
        (0x7ff1_3083, 2047), // ld x1,2047(x2)
        (0xfff1_3083, -1), // ld x1,-1(x2)
        (0x800f_0ee7, -2048), // jalr x29,-2048(x30)
        (0x7fff_0ee7, 2047), // jalr x29,2047(x30)
        (0xffff_0ee7, -1), // jalr x29,-1(x30)
        (0x000f_0ee7, 0), // jalr x29,0(x30)
        (0x001f_0ee7, 1), // jalr x29,1(x30)
        (0x400f_0ee7, 1024), // jalr x29,1024(x30)
        (0x8021_b023, -2048), // sd x2,-2048(x3)
        (0x7e21_bfa3, 2047), // sd x2,2047(x3)
        (0xfe21_bfa3, -1), // sd x2,-1(x3)
        (0x0021_b0a3, 1), // sd x2,1(x3)
        (0x0021_bfa3, 31), // sd x2,31(x3)
        (0x0221_b023, 32), // sd x2,32(x3)
        (0xfe21_b023, -32), // sd x2,-32(x3)
        (0x801f_8063, -4096), // beq x31,x1,-4096
        (0x7e1f_8fe3, 4094), // beq x31,x1,+4094
        (0x001f_80e3, 2048), // beq x31,x1,+2048
        (0xfe1f_8fe3, -2), // beq x31,x1,-2
        (0x001f_8163, 2), // beq x31,x1,+2
        (0x021f_8063, 32), // beq x31,x1,+32
        (0x2a1f_85e3, 2730), // beq x31,x1,+2730
        (0x801f_80e3, -2048), // beq x31,x1,-2048
        (0x8000_0e6f, -1048576), // jal x28,-1048576
        (0x7fff_fe6f, 1048574), // jal x28,+1048574
        (0x0020_0e6f, 2), // jal x28,+2
        (0x0010_0e6f, 2048), // jal x28,+2048
        (0x0000_1e6f, 4096), // jal x28,+4096
        (0xffff_fe6f, -2), // jal x28,-2
        (0x2aba_ae6f, 699050), // jal x28,+699050
        (0xffff_fd37, 1048575), // lui x26,0xfffff
        (0x0000_0d37, 0), // lui x26,0
        (0x1234_5d37, 74565), // lui x26,0x12345
        (0x8000_0d97, 524288), // auipc x27,0x80000
        (0x0000_1d97, 1), // auipc x27,1
        (0x0001_1093, 0), // slli x1,x2,0
        (0x0201_1093, 32), // slli x1,x2,32
        (0x01f1_5093, 31), // srli x1,x2,31
        (0x4001_5093, 0), // srai x1,x2,0
        (0x43f1_5093, 63), // srai x1,x2,63
        (0x0001_109b, 0), // slliw x1,x2,0
        (0x01f1_509b, 31), // srliw x1,x2,31
        (0x4001_509b, 0), // sraiw x1,x2,0
        (0x41f1_509b, 31), // sraiw x1,x2,31
    ];
    for (word, want) in cases {
        let number = decode(word).and_then(number);
        assert_eq!(rt; number, Some(want), "{word:#x}");
    }
}

/// Words of other extensions, and words that differ from a row in one field.
#[test]
fn words_of_no_instruction(rt: HostRuntime) {
    let words = [
        0x0000_0000u32, // all zeros
        0xffff_ffff, // all ones
        0x0000_0001, // c.nop
        0x0000_8082, // c.ret
        0x0205_951b, // slliw by 32
        0x0205_d51b, // srliw by 32
        0x4205_d51b, // sraiw by 32
        0x4005_9513, // slli with 010000 above the amount
        0x0405_d513, // srli with 000001 above the amount
        0xc3e5_d513, // srai with 110000 above the amount
        0x4405_d513, // srai with 010001 above the amount
        0x0473_02b3, // OP with funct7 2
        0x4073_12b3, // sll with funct7 0x20
        0x4273_02b3, // mul with funct7 0x21
        0x0073_22bb, // OP-32 with funct3 2
        0x0273_12bb, // OP-32, funct7 1 with funct3 1
        0x4073_72b3, // andn
        0x2073_22b3, // sh1add
        0x0873_02bb, // add.uw
        0x0833_129b, // slli.uw
        0x6003_1293, // clz
        0x6033_5293, // rori
        0x0004_a41b, // OP-IMM-32 with funct3 2
        0x00d6_2063, // BRANCH with funct3 2
        0x00d6_3063, // BRANCH with funct3 3
        0x0007_f703, // LOAD with funct3 7
        0x0108_c023, // STORE with funct3 4
        0x000f_1ee7, // JALR with funct3 1
        0x1019_a92f, // lr.w with rs2 1
        0x1109_b92f, // lr.d with rs2 16
        0x019c_0baf, // AMO with funct3 0
        0x019c_4baf, // AMO with funct3 4
        0x299c_2baf, // AMO with funct5 00101
        0x0000_100f, // fence.i
        0x0000_00f3, // ecall with rd 1
        0x0020_0073, // SYSTEM with immediate 2
        0x3403_12f3, // csrrw
        0x3020_0073, // mret
        0x1050_0073, // wfi
        0x0001_2087, // flw
        0x0011_3027, // fsd
        0x0031_70d3, // fadd.s
    ];
    for word in words {
        assert_eq!(rt; decode(word), None, "{word:#x}");
    }
}
