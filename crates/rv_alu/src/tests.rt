//! Results that another emulator gave for the same instructions and operands.
use super::*;
use rv_isa::fields::Reg;
use rv_isa::instr::Instr;

/// An operation with an immediate, where there is that one.
fn with_immediate(op: ImmOp, a: u64, imm: i32) -> Option<u64> {
    Some(alu_imm(op, a, Imm12::new(imm)?))
}

/// A shift, where an instruction has that amount.
fn shifted(op: ShiftOp, a: u64, by: i32) -> Option<u64> {
    let (by, x0) = (Shift::new(by)?, Reg::new(0)?);
    let i = Instr::ShiftImm {
        op,
        rd: x0,
        rs1: x0,
        by,
    };
    if i.new_ok() {
        Some(shift(op, a, by))
    } else {
        None
    }
}

/// The results of each operation of 0xfedcba9876543210 and 0x0123456789abcdef.
#[test]
fn operations_of_two_numbers(rt: HostRuntime) {
    let (a, b) = (0xfedc_ba98_7654_3210, 0x123_4567_89ab_cdef);
    let results = [
        (AluOp::Add, 0xffff_ffff_ffff_ffffu64),
        (AluOp::Sub, 0xfdb9_7530_eca8_6421),
        (AluOp::Sll, 0x1908_0000_0000_0000),
        (AluOp::Slt, 1),
        (AluOp::Sltu, 0),
        (AluOp::Xor, 0xffff_ffff_ffff_ffff),
        (AluOp::Srl, 0x1_fdb9),
        (AluOp::Sra, 0xffff_ffff_ffff_fdb9),
        (AluOp::Or, 0xffff_ffff_ffff_ffff),
        (AluOp::And, 0),
        (AluOp::Mul, 0x2236_d88f_e561_8cf0),
        (AluOp::Mulh, 0xfffe_b499_23cc_0953),
        (AluOp::Mulhsu, 0xfffe_b499_23cc_0953),
        (AluOp::Mulhu, 0x121_fa00_ad77_d742),
        (AluOp::Div, 0xffff_ffff_ffff_ffff),
        (AluOp::Divu, 0xe0),
        (AluOp::Rem, 0xffff_ffff_ffff_ffff),
        (AluOp::Remu, 0xf0),
        (AluOp::Addw, 0xffff_ffff_ffff_ffff),
        (AluOp::Subw, 0xffff_ffff_eca8_6421),
        (AluOp::Sllw, 0x1908_0000),
        (AluOp::Srlw, 0xeca8),
        (AluOp::Sraw, 0xeca8),
        (AluOp::Mulw, 0xffff_ffff_e561_8cf0),
        (AluOp::Divw, 0),
        (AluOp::Divuw, 0),
        (AluOp::Remw, 0x7654_3210),
        (AluOp::Remuw, 0x7654_3210),
    ];
    for (op, want) in results {
        assert_eq!(rt; alu(op, a, b), want, "{op:?}");
    }
}

/// The results of each operation of -2^63 and -1.
#[test]
fn operations_of_the_least_number_and_minus_one(rt: HostRuntime) {
    let (a, b) = (0x8000_0000_0000_0000, 0xffff_ffff_ffff_ffff);
    let results = [
        (AluOp::Add, 0x7fff_ffff_ffff_ffffu64),
        (AluOp::Sub, 0x8000_0000_0000_0001),
        (AluOp::Sll, 0),
        (AluOp::Slt, 1),
        (AluOp::Sltu, 1),
        (AluOp::Xor, 0x7fff_ffff_ffff_ffff),
        (AluOp::Srl, 1),
        (AluOp::Sra, 0xffff_ffff_ffff_ffff),
        (AluOp::Or, 0xffff_ffff_ffff_ffff),
        (AluOp::And, 0x8000_0000_0000_0000),
        (AluOp::Mul, 0x8000_0000_0000_0000),
        (AluOp::Mulh, 0),
        (AluOp::Mulhsu, 0x8000_0000_0000_0000),
        (AluOp::Mulhu, 0x7fff_ffff_ffff_ffff),
        (AluOp::Div, 0x8000_0000_0000_0000),
        (AluOp::Divu, 0),
        (AluOp::Rem, 0),
        (AluOp::Remu, 0x8000_0000_0000_0000),
        (AluOp::Addw, 0xffff_ffff_ffff_ffff),
        (AluOp::Subw, 1),
        (AluOp::Sllw, 0),
        (AluOp::Srlw, 0),
        (AluOp::Sraw, 0),
        (AluOp::Mulw, 0),
        (AluOp::Divw, 0),
        (AluOp::Divuw, 0),
        (AluOp::Remw, 0),
        (AluOp::Remuw, 0),
    ];
    for (op, want) in results {
        assert_eq!(rt; alu(op, a, b), want, "{op:?}");
    }
}

/// The results of each operation of 0x80000000 and 0xffffffff, which are -2^31 and -1 as words.
#[test]
fn operations_of_words(rt: HostRuntime) {
    let (a, b) = (0x8000_0000, 0xffff_ffff);
    let results = [
        (AluOp::Add, 0x1_7fff_ffffu64),
        (AluOp::Sub, 0xffff_ffff_8000_0001),
        (AluOp::Sll, 0),
        (AluOp::Slt, 1),
        (AluOp::Sltu, 1),
        (AluOp::Xor, 0x7fff_ffff),
        (AluOp::Srl, 0),
        (AluOp::Sra, 0),
        (AluOp::Or, 0xffff_ffff),
        (AluOp::And, 0x8000_0000),
        (AluOp::Mul, 0x7fff_ffff_8000_0000),
        (AluOp::Mulh, 0),
        (AluOp::Mulhsu, 0),
        (AluOp::Mulhu, 0),
        (AluOp::Div, 0),
        (AluOp::Divu, 0),
        (AluOp::Rem, 0x8000_0000),
        (AluOp::Remu, 0x8000_0000),
        (AluOp::Addw, 0x7fff_ffff),
        (AluOp::Subw, 0xffff_ffff_8000_0001),
        (AluOp::Sllw, 0),
        (AluOp::Srlw, 1),
        (AluOp::Sraw, 0xffff_ffff_ffff_ffff),
        (AluOp::Mulw, 0xffff_ffff_8000_0000),
        (AluOp::Divw, 0xffff_ffff_8000_0000),
        (AluOp::Divuw, 0),
        (AluOp::Remw, 0),
        (AluOp::Remuw, 0xffff_ffff_8000_0000),
    ];
    for (op, want) in results {
        assert_eq!(rt; alu(op, a, b), want, "{op:?}");
    }
}

/// The results of each operation of -1000 and 67, of which shifts see the low bits.
#[test]
fn operations_of_a_negative_number_and_67(rt: HostRuntime) {
    let (a, b) = (0xffff_ffff_ffff_fc18, 0x43);
    let results = [
        (AluOp::Add, 0xffff_ffff_ffff_fc5bu64),
        (AluOp::Sub, 0xffff_ffff_ffff_fbd5),
        (AluOp::Sll, 0xffff_ffff_ffff_e0c0),
        (AluOp::Slt, 1),
        (AluOp::Sltu, 0),
        (AluOp::Xor, 0xffff_ffff_ffff_fc5b),
        (AluOp::Srl, 0x1fff_ffff_ffff_ff83),
        (AluOp::Sra, 0xffff_ffff_ffff_ff83),
        (AluOp::Or, 0xffff_ffff_ffff_fc5b),
        (AluOp::And, 0),
        (AluOp::Mul, 0xffff_ffff_fffe_fa48),
        (AluOp::Mulh, 0xffff_ffff_ffff_ffff),
        (AluOp::Mulhsu, 0xffff_ffff_ffff_ffff),
        (AluOp::Mulhu, 0x42),
        (AluOp::Div, 0xffff_ffff_ffff_fff2),
        (AluOp::Divu, 0x3d2_2635_7e16_ecd6),
        (AluOp::Rem, 0xffff_ffff_ffff_ffc2),
        (AluOp::Remu, 0x16),
        (AluOp::Addw, 0xffff_ffff_ffff_fc5b),
        (AluOp::Subw, 0xffff_ffff_ffff_fbd5),
        (AluOp::Sllw, 0xffff_ffff_ffff_e0c0),
        (AluOp::Srlw, 0x1fff_ff83),
        (AluOp::Sraw, 0xffff_ffff_ffff_ff83),
        (AluOp::Mulw, 0xffff_ffff_fffe_fa48),
        (AluOp::Divw, 0xffff_ffff_ffff_fff2),
        (AluOp::Divuw, 0x3d2_2626),
        (AluOp::Remw, 0xffff_ffff_ffff_ffc2),
        (AluOp::Remuw, 0x26),
    ];
    for (op, want) in results {
        assert_eq!(rt; alu(op, a, b), want, "{op:?}");
    }
}

/// The manual's table of these.
#[test]
fn divisions_by_zero_and_with_overflow(rt: HostRuntime) {
    let cases = [
        (AluOp::Div, 1u64 << 63, u64::MAX, 1u64 << 63),
        (AluOp::Rem, 1 << 63, u64::MAX, 0),
        (AluOp::Div, 5, 0, u64::MAX),
        (AluOp::Divu, 5, 0, u64::MAX),
        (AluOp::Rem, 5, 0, 5),
        (AluOp::Remu, 5, 0, 5),
        (AluOp::Divw, 0x8000_0000, 0xffff_ffff, 0xffff_ffff_8000_0000),
        (AluOp::Remw, 0x8000_0000, 0xffff_ffff, 0),
        (AluOp::Div, 7, 0xffff_ffff_ffff_fffe, 0xffff_ffff_ffff_fffd),
        (AluOp::Rem, 7, 0xffff_ffff_ffff_fffe, 1),
        (AluOp::Divw, 5, 0, u64::MAX),
        (AluOp::Divuw, 5, 0, u64::MAX),
        (AluOp::Remw, 0x8000_0000, 0, 0xffff_ffff_8000_0000),
        (AluOp::Remuw, 0x8000_0000, 0, 0xffff_ffff_8000_0000),
    ];
    for (op, a, b, want) in cases {
        assert_eq!(rt; alu(op, a, b), want, "{op:?} {a:#x} {b:#x}");
    }
}

/// The results of each operation for an operand and an immediate.
#[test]
fn immediate_operations(rt: HostRuntime) {
    let cases = [
        (
            0xfedc_ba98_7654_3210u64,
            2047,
            [
                (ImmOp::Addi, 0xfedc_ba98_7654_3a0fu64),
                (ImmOp::Slti, 1),
                (ImmOp::Sltiu, 0),
                (ImmOp::Xori, 0xfedc_ba98_7654_35ef),
                (ImmOp::Ori, 0xfedc_ba98_7654_37ff),
                (ImmOp::Andi, 0x210),
                (ImmOp::Addiw, 0x7654_3a0f),
            ],
        ),
        (
            0x7fff_ffff,
            1,
            [
                (ImmOp::Addi, 0x8000_0000),
                (ImmOp::Slti, 0),
                (ImmOp::Sltiu, 0),
                (ImmOp::Xori, 0x7fff_fffe),
                (ImmOp::Ori, 0x7fff_ffff),
                (ImmOp::Andi, 1),
                (ImmOp::Addiw, 0xffff_ffff_8000_0000),
            ],
        ),
        (
            2,
            -2048,
            [
                (ImmOp::Addi, 0xffff_ffff_ffff_f802),
                (ImmOp::Slti, 0),
                (ImmOp::Sltiu, 1),
                (ImmOp::Xori, 0xffff_ffff_ffff_f802),
                (ImmOp::Ori, 0xffff_ffff_ffff_f802),
                (ImmOp::Andi, 0),
                (ImmOp::Addiw, 0xffff_ffff_ffff_f802),
            ],
        ),
        (
            0xffff_ffff_ffff_ffff,
            -1,
            [
                (ImmOp::Addi, 0xffff_ffff_ffff_fffe),
                (ImmOp::Slti, 0),
                (ImmOp::Sltiu, 0),
                (ImmOp::Xori, 0),
                (ImmOp::Ori, 0xffff_ffff_ffff_ffff),
                (ImmOp::Andi, 0xffff_ffff_ffff_ffff),
                (ImmOp::Addiw, 0xffff_ffff_ffff_fffe),
            ],
        ),
    ];
    for (a, imm, results) in cases {
        for (op, want) in results {
            assert_eq!(rt;
                with_immediate(op, a, imm),
                Some(want),
                "{op:?} {a:#x} {imm}"
            );
        }
    }
}

/// The results of shifts of an operand: the shift, the amount and the result.
#[test]
fn shifts_by_an_amount(rt: HostRuntime) {
    let cases = [
        (
            0xfedc_ba98_7654_3210u64,
            [
                (ShiftOp::Slli, 63, 0u64),
                (ShiftOp::Slli, 36, 0x6543_2100_0000_0000),
                (ShiftOp::Srli, 63, 1),
                (ShiftOp::Srli, 36, 0xfed_cba9),
                (ShiftOp::Srai, 63, 0xffff_ffff_ffff_ffff),
                (ShiftOp::Srai, 36, 0xffff_ffff_ffed_cba9),
                (ShiftOp::Slliw, 31, 0),
                (ShiftOp::Slliw, 4, 0x6543_2100),
                (ShiftOp::Srliw, 31, 0),
                (ShiftOp::Srliw, 0, 0x7654_3210),
                (ShiftOp::Sraiw, 31, 0),
                (ShiftOp::Sraiw, 4, 0x765_4321),
            ],
        ),
        (
            0x123_4567_89ab_cdef,
            [
                (ShiftOp::Slli, 63, 0x8000_0000_0000_0000),
                (ShiftOp::Slli, 36, 0x9abc_def0_0000_0000),
                (ShiftOp::Srli, 63, 0),
                (ShiftOp::Srli, 36, 0x12_3456),
                (ShiftOp::Srai, 63, 0),
                (ShiftOp::Srai, 36, 0x12_3456),
                (ShiftOp::Slliw, 31, 0xffff_ffff_8000_0000),
                (ShiftOp::Slliw, 4, 0xffff_ffff_9abc_def0),
                (ShiftOp::Srliw, 31, 1),
                (ShiftOp::Srliw, 0, 0xffff_ffff_89ab_cdef),
                (ShiftOp::Sraiw, 31, 0xffff_ffff_ffff_ffff),
                (ShiftOp::Sraiw, 4, 0xffff_ffff_f89a_bcde),
            ],
        ),
    ];
    for (a, results) in cases {
        for (op, by, want) in results {
            assert_eq!(rt; shifted(op, a, by), Some(want), "{op:?} {a:#x} {by}");
        }
    }
}

/// What each operation stores for what it loads and its register: of 8 bytes, and of 4.
#[test]
fn memory_operations(rt: HostRuntime) {
    let cases = [
        (
            0xfedc_ba98_7654_3210u64,
            0x123_4567_89ab_cdefu64,
            [
                (AmoOp::Swap, 0x123_4567_89ab_cdefu64, 0xffff_ffff_89ab_cdef),
                (AmoOp::Add, 0xffff_ffff_ffff_ffff, 0xffff_ffff_ffff_ffff),
                (AmoOp::Xor, 0xffff_ffff_ffff_ffff, 0xffff_ffff_ffff_ffff),
                (AmoOp::And, 0, 0),
                (AmoOp::Or, 0xffff_ffff_ffff_ffff, 0xffff_ffff_ffff_ffff),
                (AmoOp::Min, 0xfedc_ba98_7654_3210, 0xffff_ffff_89ab_cdef),
                (AmoOp::Max, 0x123_4567_89ab_cdef, 0x7654_3210),
                (AmoOp::Minu, 0x123_4567_89ab_cdef, 0x7654_3210),
                (AmoOp::Maxu, 0xfedc_ba98_7654_3210, 0xffff_ffff_89ab_cdef),
            ],
        ),
        (
            0x7fff_ffff,
            1,
            [
                (AmoOp::Swap, 1, 1),
                (AmoOp::Add, 0x8000_0000, 0xffff_ffff_8000_0000),
                (AmoOp::Xor, 0x7fff_fffe, 0x7fff_fffe),
                (AmoOp::And, 1, 1),
                (AmoOp::Or, 0x7fff_ffff, 0x7fff_ffff),
                (AmoOp::Min, 1, 1),
                (AmoOp::Max, 0x7fff_ffff, 0x7fff_ffff),
                (AmoOp::Minu, 1, 1),
                (AmoOp::Maxu, 0x7fff_ffff, 0x7fff_ffff),
            ],
        ),
        (
            0x8000_0000_0000_0000,
            0xffff_ffff_8000_0000,
            [
                (AmoOp::Swap, 0xffff_ffff_8000_0000, 0xffff_ffff_8000_0000),
                (AmoOp::Add, 0x7fff_ffff_8000_0000, 0xffff_ffff_8000_0000),
                (AmoOp::Xor, 0x7fff_ffff_8000_0000, 0xffff_ffff_8000_0000),
                (AmoOp::And, 0x8000_0000_0000_0000, 0),
                (AmoOp::Or, 0xffff_ffff_8000_0000, 0xffff_ffff_8000_0000),
                (AmoOp::Min, 0x8000_0000_0000_0000, 0xffff_ffff_8000_0000),
                (AmoOp::Max, 0xffff_ffff_8000_0000, 0),
                (AmoOp::Minu, 0x8000_0000_0000_0000, 0),
                (AmoOp::Maxu, 0xffff_ffff_8000_0000, 0xffff_ffff_8000_0000),
            ],
        ),
    ];
    for (old, b, results) in cases {
        for (op, wide, narrow) in results {
            assert_eq!(rt; amo(op, true, old, b), wide, "{op:?} {old:#x} {b:#x}");
            assert_eq!(rt; amo(op, false, old, b), narrow, "{op:?} {old:#x} {b:#x}");
        }
    }
}

/// Whether a branch is taken for two operands.
#[test]
fn branches(rt: HostRuntime) {
    let cases = [
        (
            0u64,
            0u64,
            [
                (Cond::Eq, true),
                (Cond::Ne, false),
                (Cond::Lt, false),
                (Cond::Ge, true),
                (Cond::Ltu, false),
                (Cond::Geu, true),
            ],
        ),
        (
            0xffff_ffff_ffff_ffff,
            1,
            [
                (Cond::Eq, false),
                (Cond::Ne, true),
                (Cond::Lt, true),
                (Cond::Ge, false),
                (Cond::Ltu, false),
                (Cond::Geu, true),
            ],
        ),
        (
            1,
            0xffff_ffff_ffff_ffff,
            [
                (Cond::Eq, false),
                (Cond::Ne, true),
                (Cond::Lt, false),
                (Cond::Ge, true),
                (Cond::Ltu, true),
                (Cond::Geu, false),
            ],
        ),
        (
            0x8000_0000_0000_0000,
            0x7fff_ffff_ffff_ffff,
            [
                (Cond::Eq, false),
                (Cond::Ne, true),
                (Cond::Lt, true),
                (Cond::Ge, false),
                (Cond::Ltu, false),
                (Cond::Geu, true),
            ],
        ),
    ];
    for (a, b, results) in cases {
        for (c, want) in results {
            assert_eq!(rt; taken(c, a, b), want, "{c:?} {a:#x} {b:#x}");
        }
    }
}
