//! Words that llvm-mc makes of instructions, with the address of each, and the instructions in the assembler's own syntax.

use crate::disassemble;
use oc_base::fault::NoMemory;
use std::alloc::AllocGlobal;
use std::process::Abort;

/// Word, address and statement.
const WORDS: &str = "\
007302b3 10000 => add x5, x6, x7
40a00fbb 10000 => subw x31, x0, x10
023120b3 10000 => mulhsu x1, x2, x3
03e4f43b 10000 => remuw x8, x9, x30
80010113 10000 => addi x2, x2, -2048
7ff5051b 10000 => addiw x10, x10, 2047
00103093 10000 => sltiu x1, x0, 1
03f31313 10000 => slli x6, x6, 63
41f3d39b 10000 => sraiw x7, x7, 31
fffff2b7 10000 => lui x5, 0xfffff
00001197 10000 => auipc x3, 0x1
040000ef 10000 => jal x1, 0x10040
ffdff06f 10000 => jal x0, 0xfffc
00008067 10000 => jalr x0, 0(x1)
fe0508e3 10010 => beq x10, x0, 0x10000
7e20ffe3 10000 => bgeu x1, x2, 0x10ffe
ffc42283 10000 => lw x5, -4(x8)
00816283 10000 => lwu x5, 8(x2)
7f813083 10000 => ld x1, 2040(x2)
00050023 10000 => sb x0, 0(x10)
80113023 10000 => sd x1, -2048(x2)
1005272f 10000 => lr.w x14, (x10)
18e537af 10000 => sc.d x15, x14, (x10)
0063a2af 10000 => amoadd.w x5, x6, (x7)
e01fb02f 10000 => amomaxu.d x0, x1, (x31)
0ff0000f 10000 => fence
00000073 10000 => ecall
00100073 10000 => ebreak
1405272f 10000 => .word 0x1405272f
1ae537af 10000 => .word 0x1ae537af
0e63a2af 10000 => .word 0xe63a2af
0330000f 10000 => .word 0x330000f
00000000 10000 => .word 0x0
ffdff06f 0 => .word 0xffdff06f
040000ef ffffffffffffffff => .word 0x40000ef
";

fn check(rt: &(impl Abort + AllocGlobal), row: &str) -> Result<(), NoMemory> {
    let Some((case, wanted)) = row.split_once(" => ") else {
        return Ok(());
    };
    let Some((word, at)) = case.split_once(" ") else {
        return Ok(());
    };
    if let (Ok(word), Ok(at)) = (u32::from_str_radix(word, 16), u64::from_str_radix(at, 16)) {
        let text = disassemble(rt.alloc(), word, at)?;
        assert_eq!(rt; text.as_slice(), wanted.as_bytes(), "{row}");
    }
    Ok(())
}

#[test]
fn words_are_statements(rt: HostRuntime) -> Result<(), NoMemory> {
    for row in WORDS.lines() {
        check(&rt, row)?;
    }
    Ok(())
}
