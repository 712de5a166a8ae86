//! Words made by stock assemblers, and again from the manual's field listing by a script.
use super::*;
use crate::laws::{decode_encoded, encode_decoded, one_word};
use rv_isa::fields::Imm12;
use rv_isa::instr::{ImmOp, Order};

/// A word or more for each row, and the ends of every immediate.
#[test]
fn words_encode_back(rt: HostRuntime) {
    let words = [
        0x0073_02b3u32, // add x5,x6,x7
        0x4073_02b3, // sub x5,x6,x7
        0x0073_12b3, // sll x5,x6,x7
        0x0073_22b3, // slt x5,x6,x7
        0x0073_32b3, // sltu x5,x6,x7
        0x0073_42b3, // xor x5,x6,x7
        0x0073_52b3, // srl x5,x6,x7
        0x4073_52b3, // sra x5,x6,x7
        0x0073_62b3, // or x5,x6,x7
        0x0073_72b3, // and x5,x6,x7
        0x0273_02b3, // mul x5,x6,x7
        0x0273_12b3, // mulh x5,x6,x7
        0x0273_22b3, // mulhsu x5,x6,x7
        0x0273_32b3, // mulhu x5,x6,x7
        0x0273_42b3, // div x5,x6,x7
        0x0273_52b3, // divu x5,x6,x7
        0x0273_62b3, // rem x5,x6,x7
        0x0273_72b3, // remu x5,x6,x7
        0x0073_02bb, // addw x5,x6,x7
        0x4073_02bb, // subw x5,x6,x7
        0x0073_12bb, // sllw x5,x6,x7
        0x0073_52bb, // srlw x5,x6,x7
        0x4073_52bb, // sraw x5,x6,x7
        0x0273_02bb, // mulw x5,x6,x7
        0x0273_42bb, // divw x5,x6,x7
        0x0273_52bb, // divuw x5,x6,x7
        0x0273_62bb, // remw x5,x6,x7
        0x0273_72bb, // remuw x5,x6,x7
        0xb2e4_8413, // addi x8,x9,-1234
        0xb2e4_a413, // slti x8,x9,-1234
        0xb2e4_b413, // sltiu x8,x9,-1234
        0xb2e4_c413, // xori x8,x9,-1234
        0xb2e4_e413, // ori x8,x9,-1234
        0xb2e4_f413, // andi x8,x9,-1234
        0xb2e4_841b, // addiw x8,x9,-1234
        0x03f5_9513, // slli x10,x11,63
        0x0215_d513, // srli x10,x11,33
        0x43e5_d513, // srai x10,x11,62
        0x01f5_951b, // slliw x10,x11,31
        0x0115_d51b, // srliw x10,x11,17
        0x41e5_d51b, // sraiw x10,x11,30
        0xd4d6_0b63, // beq x12,x13,-2730
        0xd4d6_1b63, // bne x12,x13,-2730
        0xd4d6_4b63, // blt x12,x13,-2730
        0xd4d6_5b63, // bge x12,x13,-2730
        0xd4d6_6b63, // bltu x12,x13,-2730
        0xd4d6_7b63, // bgeu x12,x13,-2730
        0xd557_8703, // lb x14,-683(x15)
        0xd557_9703, // lh x14,-683(x15)
        0xd557_a703, // lw x14,-683(x15)
        0xd557_b703, // ld x14,-683(x15)
        0xd557_c703, // lbu x14,-683(x15)
        0xd557_d703, // lhu x14,-683(x15)
        0xd557_e703, // lwu x14,-683(x15)
        0x5508_8aa3, // sb x16,1365(x17)
        0x5508_9aa3, // sh x16,1365(x17)
        0x5508_aaa3, // sw x16,1365(x17)
        0x5508_baa3, // sd x16,1365(x17)
        0x1009_a92f, // lr.w x18,(x19)
        0x196a_aa2f, // sc.w x20,x22,(x21)
        0x1409_a92f, // lr.w.aq x18,(x19)
        0x1d6a_aa2f, // sc.w.aq x20,x22,(x21)
        0x1209_a92f, // lr.w.rl x18,(x19)
        0x1b6a_aa2f, // sc.w.rl x20,x22,(x21)
        0x1609_a92f, // lr.w.aqrl x18,(x19)
        0x1f6a_aa2f, // sc.w.aqrl x20,x22,(x21)
        0x1009_b92f, // lr.d x18,(x19)
        0x196a_ba2f, // sc.d x20,x22,(x21)
        0x1409_b92f, // lr.d.aq x18,(x19)
        0x1d6a_ba2f, // sc.d.aq x20,x22,(x21)
        0x1209_b92f, // lr.d.rl x18,(x19)
        0x1b6a_ba2f, // sc.d.rl x20,x22,(x21)
        0x1609_b92f, // lr.d.aqrl x18,(x19)
        0x1f6a_ba2f, // sc.d.aqrl x20,x22,(x21)
        0x099c_2baf, // amoswap.w x23,x25,(x24)
        0x019c_2baf, // amoadd.w x23,x25,(x24)
        0x219c_2baf, // amoxor.w x23,x25,(x24)
        0x619c_2baf, // amoand.w x23,x25,(x24)
        0x419c_2baf, // amoor.w x23,x25,(x24)
        0x819c_2baf, // amomin.w x23,x25,(x24)
        0xa19c_2baf, // amomax.w x23,x25,(x24)
        0xc19c_2baf, // amominu.w x23,x25,(x24)
        0xe19c_2baf, // amomaxu.w x23,x25,(x24)
        0x099c_3baf, // amoswap.d x23,x25,(x24)
        0x019c_3baf, // amoadd.d x23,x25,(x24)
        0x219c_3baf, // amoxor.d x23,x25,(x24)
        0x619c_3baf, // amoand.d x23,x25,(x24)
        0x419c_3baf, // amoor.d x23,x25,(x24)
        0x819c_3baf, // amomin.d x23,x25,(x24)
        0xa19c_3baf, // amomax.d x23,x25,(x24)
        0xc19c_3baf, // amominu.d x23,x25,(x24)
        0xe19c_3baf, // amomaxu.d x23,x25,(x24)
        0x0d9c_2baf, // amoswap.w.aq x23,x25,(x24)
        0x039c_3baf, // amoadd.d.rl x23,x25,(x24)
        0xe79c_3baf, // amomaxu.d.aqrl x23,x25,(x24)
        0xffff_fd37, // lui x26,0xfffff
        0x0000_0d37, // lui x26,0
        0x1234_5d37, // lui x26,0x12345
        0x8000_0d97, // auipc x27,0x80000
        0x0000_1d97, // auipc x27,1
        0x8000_0e6f, // jal x28,-1048576
        0x7fff_fe6f, // jal x28,+1048574
        0x0020_0e6f, // jal x28,+2
        0x0010_0e6f, // jal x28,+2048
        0x0000_1e6f, // jal x28,+4096
        0xffff_fe6f, // jal x28,-2
        0x2aba_ae6f, // jal x28,+699050
        0x0080_00ef, // jal x1,+8
        0x800f_0ee7, // jalr x29,-2048(x30)
        0x7fff_0ee7, // jalr x29,2047(x30)
        0xffff_0ee7, // jalr x29,-1(x30)
        0x000f_0ee7, // jalr x29,0(x30)
        0x001f_0ee7, // jalr x29,1(x30)
        0x400f_0ee7, // jalr x29,1024(x30)
        0x801f_8063, // beq x31,x1,-4096
        0x7e1f_8fe3, // beq x31,x1,+4094
        0x001f_80e3, // beq x31,x1,+2048
        0xfe1f_8fe3, // beq x31,x1,-2
        0x001f_8163, // beq x31,x1,+2
        0x021f_8063, // beq x31,x1,+32
        0x2a1f_85e3, // beq x31,x1,+2730
        0x801f_80e3, // beq x31,x1,-2048
        0x8021_b023, // sd x2,-2048(x3)
        0x7e21_bfa3, // sd x2,2047(x3)
        0xfe21_bfa3, // sd x2,-1(x3)
        0x0021_b0a3, // sd x2,1(x3)
        0x0021_bfa3, // sd x2,31(x3)
        0x0221_b023, // sd x2,32(x3)
        0xfe21_b023, // sd x2,-32(x3)
        0x8001_0093, // addi x1,x2,-2048
        0x7ff1_0093, // addi x1,x2,2047
        0xfff1_0093, // addi x1,x2,-1
        0x0001_0093, // addi x1,x2,0
        0x8001_3083, // ld x1,-2048(x2)
        0x7ff1_3083, // ld x1,2047(x2)
        0xfff1_3083, // ld x1,-1(x2)
        0x0001_1093, // slli x1,x2,0
        0x0201_1093, // slli x1,x2,32
        0x01f1_5093, // srli x1,x2,31
        0x4001_5093, // srai x1,x2,0
        0x43f1_5093, // srai x1,x2,63
        0x0001_109b, // slliw x1,x2,0
        0x01f1_509b, // srliw x1,x2,31
        0x4001_509b, // sraiw x1,x2,0
        0x41f1_509b, // sraiw x1,x2,31
        0x0ff0_000f, // fence
        0x0330_000f, // fence rw,rw
        0x8330_000f, // fence.tso
        0x0210_000f, // fence r,w
        0x0000_0073, // ecall
        0x0010_0073, // ebreak
        0x0050_0093, // addi x1,x0,5
        0x1005_32af, // lr.d x5,(x10)
    ];
    for word in words {
        assert_eq!(rt; encode_decoded(word), Some(word), "{word:#x}");
    }
    for word in [0u32, 0xffff_ffff, 0x0205_951b, 0x0000_100f] {
        assert_eq!(rt; encode_decoded(word), None, "{word:#x}");
    }
    one_word();
}

#[test]
fn instructions_have_their_words(rt: HostRuntime) {
    let order = Order {
        aq: false,
        rl: false,
    };
    let (x0, x1) = (Reg::new(0).unwrap(), Reg::new(1).unwrap());
    let (x5, x10) = (Reg::new(5).unwrap(), Reg::new(10).unwrap());
    let (imm, off) = (Imm12::new(5).unwrap(), OffJ::new(8).unwrap());
    let op = ImmOp::Addi;
    let cases = [
        (
            Instr::AluImm {
                op,
                rd: x1,
                rs1: x0,
                imm,
            },
            0x0050_0093u32,
        ), // addi x1,x0,5
        (Instr::Jal { rd: x1, off }, 0x0080_00ef), // jal x1,+8
        (
            Instr::Lr {
                wide: true,
                order,
                rd: x5,
                rs1: x10,
            },
            0x1005_32af,
        ), // lr.d x5,(x10)
        (Instr::Ecall, 0x0000_0073),
        (Instr::Ebreak, 0x0010_0073),
    ];
    for (i, word) in cases {
        if i.new_ok() {
            assert_eq!(rt; encode(&i), word);
            assert_eq!(rt; decode_encoded(&i), Some(i));
        }
        assert_eq!(rt; i.new_ok(), true);
    }
}

/// The words of `jal x28` that go from one address to another.
#[test]
fn jumps_reach_their_targets(rt: HostRuntime) {
    let cases = [
        (0x100000u64, 0x0u64, Ok(0x8000_0e6f)),
        (0x0, 0xffffe, Ok(0x7fff_fe6f)),
        (0x10000, 0x10002, Ok(0x0020_0e6f)),
        (0x10000, 0x10800, Ok(0x0010_0e6f)),
        (0x10000, 0x11000, Ok(0x0000_1e6f)),
        (0x10002, 0x10000, Ok(0xffff_fe6f)),
        (0x10000, 0xbaaaa, Ok(0x2aba_ae6f)),
        (0xfffffffffff00000, 0xfffffffffffffffe, Ok(0x7fff_fe6f)),
        (0xfffffffffffffffe, 0xffffffffffeffffe, Ok(0x8000_0e6f)),
        (0x0, 0x100000, Err(OutOfReach)),
        (0x100002, 0x0, Err(OutOfReach)),
        (0x10000, 0x10001, Err(OutOfReach)),
        (0x10001, 0x10000, Err(OutOfReach)),
        (0x0, 0xfffffffffffffffe, Err(OutOfReach)),
        (0xfffffffffffffffe, 0x0, Err(OutOfReach)),
        (0x0, 0x100000000, Err(OutOfReach)),
        (0x100000000, 0x0, Err(OutOfReach)),
        (0x0, 0x8000000000000000, Err(OutOfReach)),
        (0x0, 0xffffffffffffffff, Err(OutOfReach)),
    ];
    let rd = Reg::new(28).unwrap();
    for (at, to, want) in cases {
        assert_eq!(rt; jal_to(rd, at, to), want, "{at:#x} {to:#x}");
    }
}

/// The words of `beq x31,x1` that go from one address to another.
#[test]
fn branches_reach_their_targets(rt: HostRuntime) {
    let cases = [
        (0x1000u64, 0x0u64, Ok(0x801f_8063)),
        (0x0, 0xffe, Ok(0x7e1f_8fe3)),
        (0x10000, 0x10800, Ok(0x001f_80e3)),
        (0x10000, 0xfffe, Ok(0xfe1f_8fe3)),
        (0x10000, 0x10002, Ok(0x001f_8163)),
        (0x10000, 0x10020, Ok(0x021f_8063)),
        (0x10000, 0x10aaa, Ok(0x2a1f_85e3)),
        (0x10000, 0xf800, Ok(0x801f_80e3)),
        (0xfffffffffffff000, 0xfffffffffffffffe, Ok(0x7e1f_8fe3)),
        (0xfffffffffffffffe, 0xffffffffffffeffe, Ok(0x801f_8063)),
        (0x0, 0x1000, Err(OutOfReach)),
        (0x1002, 0x0, Err(OutOfReach)),
        (0x10000, 0x10001, Err(OutOfReach)),
        (0x10001, 0x10000, Err(OutOfReach)),
        (0x0, 0xfffffffffffffffe, Err(OutOfReach)),
        (0xfffffffffffffffe, 0x0, Err(OutOfReach)),
        (0x0, 0x100000000, Err(OutOfReach)),
        (0x100000000, 0x0, Err(OutOfReach)),
        (0x0, 0xffffffffffffffff, Err(OutOfReach)),
    ];
    let (rs1, rs2) = (Reg::new(31).unwrap(), Reg::new(1).unwrap());
    for (at, to, want) in cases {
        assert_eq!(rt;
            branch_to(Cond::Eq, rs1, rs2, at, to),
            want,
            "{at:#x} {to:#x}"
        );
    }
}
