//! Texts with their faults and their parts; the words of instructions are those of GNU as.

ghost use Rattle.std.specs.Prelude.{◌≤◌, length};

use crate::assemble::assemble;
use crate::fault::AsmFault;
use crate::symbol::{Fixup, Named};
use oc_base::fault::NoMemory;
use std::alloc::{AllocGlobal, Global};
use std::process::Abort;

const HI: &[u8] = b".func main; addi x10,x0,1; addi x17,x0,64; lui x11,17; addi x12,x0,3; ecall
addi x10,x0,0; addi x17,x0,93; ecall; .end; .data; .ascii \"hi\\n\"
";

const VTABLE: &[u8] =
    b".func main; lui x8,17; ld x5,0(x8); jalr x1,0(x5); ld x5,0(x8); jalr x1,0(x5)
addi x17,x0,93; ecall; .end; .func f; addi x10,x10,5; ret; .end
.data; .object _ZTV1F; .slot f; .endobject
";

const CALLS: &[u8] = b".func main; lui x5,16; jalr x0,16(x5); nop; call leaf; jal x1,main; .end
.func leaf; ret; .end; .entry leaf
";

/// The bytes of a text that is written with `/` for a newline.
fn text_of(alloc: Global, row: &str) -> Result<Vec<u8>, NoMemory> {
    let mut bytes = row.as_bytes().to_vec(alloc)?;
    for byte in &mut bytes {
        if *byte == b'/' {
            *byte = b'\n';
        }
    }
    Ok(bytes)
}

/// The line and the kind of the first fault.
fn fault_in(alloc: Global, text: &[u8]) -> Result<String, NoMemory>
    requires { length text.now ≤ 67108864 }
{
    match assemble(alloc, text) {
        Ok(_) => Ok(String::from_str(alloc, "none")?),
        Err(AsmFault::Line { line, kind }) => Ok(format!(in alloc; "{line} {kind}")?),
        Err(AsmFault::NoMemory) => Err(NoMemory),
    }
}

fn check_faults(rt: &(impl Abort + AllocGlobal), table: &str) -> Result<(), NoMemory> {
    for row in table.lines() {
        if let Some((text, wanted)) = row.split_once(" => ") {
            let text = text_of(rt.alloc(), text)?;
            if text.len() <= 67108864 {
                assert_eq!(rt; fault_in(rt.alloc(), &text)?.as_str(), wanted, "{row}");
            }
        }
    }
    Ok(())
}

// Texts, and the line and the kind of their first fault.
const FAULTS: &str = "\
go x1/ => 1 1
.func a/addi x1,x0,4096/.end/ => 2 3
.func a/jal x0,b/.end/ => 2 4
.func a/ => 1 6
 => 1 4
.func f/.end/.data/nop;go/ => 4 1
.func f/.end/.data/.byte x;nop/ => 4 7
.func f/.func g;addi x1,x2/.end => 2 2
.func f/f: .func g/.end => 2 6
.func f/f: jal x0,b/.end => 2 5
.func f/jal x0,b;addi x1,x1,2048/.end => 2 4
.func f/.nops 4194305;addi x1,x1,2048/.end => 2 3
.func f/.nops 4194305/.end => 2 8
.func f/.end/.data/.space 16777217 => 4 8
.func f/.end/.data/.space 16777216 => none
.func f/.nops 4194304/.end => none
.func f/.end/.data/.space 99999999999999999999999999 => 4 8
.func f/.nops -1/.end => 2 3
.func f/.end/.data/nop/ => 4 7
.func f/.end/.data/a:/ => 4 7
.func f/.end/.data/.func g/ => 4 7
.func f/.end/.data/.end/ => 4 7
.func f/.end/.data/.nops 1/ => 4 7
.func f/.end/.data/call f/ => 4 7
.func f/.end/.byte 1/ => 3 7
.func f/.end/.dword 1/ => 3 7
.func f/.end/.space 1/ => 3 7
.func f/.end/.ascii \"a\"/ => 3 7
.func f/.end/.object o/ => 3 7
.func f/.end/.endobject/ => 3 7
.func f/.end/.slot f/ => 3 7
.func f/.end/.word 1/.data/.word 1/.text/.entry f/.data/.entry f => none
.func f/jal x0,a/.end/.data/a: .byte 1/ => 5 7
.func f/jal x0,a/.end/a: addi x1/ => 4 2
.func f/.end/.func g/.func h/.end => 4 6
.func f/.func g/ => 1 6
.func f/.end/.data/.object o/.object p/.endobject => 5 6
.func f/.end/.data/.object o => 4 6
.func f/.end/.end => 3 6
.func f/.end/.data/.endobject => 4 6
.func f/.end/.func f/.end => 3 5
.func f/.end/.data/.object f/.endobject => 4 5
.func f/a: a: nop/.end => 2 5
.func f/a: call a/.end => 2 4
.func f/jal x0,o/.end/.data/.object o/.endobject => 2 4
.func f/.end/.entry g => 3 4
.func f/.end/.data/.slot o/.object o/.endobject => 4 4
.func f/beq x1,x2,b/.end => 2 4
.func f/.end/.data/.byte -129 => 4 3
.func f/.end/.data/.byte -128 => none
.func f/.end/.data/.byte 255 => none
.func f/.end/.data/.byte 256 => 4 3
.func f/.end/.data/.dword -9223372036854775809 => 4 3
.func f/.end/.data/.dword 18446744073709551615 => none
.func f/.end/.data/.word 4294967296 => 4 3
.func f/.end/.data/.word -2147483648 => none
.func f/slli x1,x1,64/.end => 2 3
.func f/slliw x1,x1,32/.end => 2 3
.func f/slliw x1,x1,31/.end => none
.func f/lui x1,1048576/.end => 2 3
.func f/lui x1,-1/.end => 2 3
.func f/ld x1,2048(x2)/.end => 2 3
.func f/sd x1,-2049(x2)/.end => 2 3
.func f/jal x0,65541/.end => 2 3
.func f/jal x0,-4/.end => 2 3
.func f/beq x1,x2,69632/.end => 2 3
.func f/beq x1,x2,69630/.end => none
.func f/addi x1,x2/.end => 2 2
.func f/addi x1,x32,0/.end => 2 2
.func f/addi x01,x1,0/.end => 2 2
.func f/ld x1,(x2)/.end => 2 2
.func f/ld x1,0/.end => 2 2
.func f/lr.d x1,0(x2)/.end => 2 2
.func f/ret x1/.end => 2 2
.func f/jal x1,1a/.end => 2 2
.func f/addi x1,x1,0X10/.end => 2 2
.func f/addi x1,x1,-0x10/.end => 2 2
.func f/ret\r/.end => 2 2
.func f/nop ,/.end => 2 2
.func f/addi x1,x1,1,/.end => 2 2
.func f/.word \"a\"/.end => 2 2
.func f/lr.d.aq x1,(x2)/.end => 2 1
.func f/amoadd.q x1,x2,(x3)/.end => 2 1
.func f/1a: nop/.end => 2 1
.func f/ADD x1,x1,x1/.end => 2 1
.func f/a b: nop/.end => 2 1
.func f/, nop/.end => 2 1
.func f/.end/.data/.ascii \"a => 4 2
.func f/.end/.data/.ascii \"a\\t\" => 4 2
.func f/.end/.data/.ascii \"a\" \"b\" => 4 2
.func f/.end/.data/.ascii \"\" => none
.func f/.end/.data/.ascii a => 4 2
.func f/.end/.data/.ascii \"a;b#c\\n\"; .byte 1 # 2 => none";

#[test]
fn the_first_fault_is_told(rt: HostRuntime) -> Result<(), NoMemory> {
    check_faults(&rt, FAULTS)
}

// Two faults in one line, of which the second statement's is reported: each two of the kinds 1, 7, 2, 6, 5, 4, 3 and 8.
const PAIRS: &str = "\
.func f/.byte 1;go/.end => 2 1
.func f/ret x1;go/.end => 2 1
.func f/.func g;go/.end => 2 1
.func f/f: nop;go/.end => 2 1
.func f/jal x0,b;go/.end => 2 1
.func f/addi x1,x1,2048;go/.end => 2 1
.func f/.nops 4194305;go/.end => 2 1
.func f/ret x1;.byte 1/.end => 2 7
.func f/.func g;.byte 1/.end => 2 7
.func f/f: nop;.byte 1/.end => 2 7
.func f/jal x0,b;.byte 1/.end => 2 7
.func f/addi x1,x1,2048;.byte 1/.end => 2 7
.func f/.nops 4194305;.byte 1/.end => 2 7
.func f/.func g;ret x1/.end => 2 2
.func f/f: nop;ret x1/.end => 2 2
.func f/jal x0,b;ret x1/.end => 2 2
.func f/addi x1,x1,2048;ret x1/.end => 2 2
.func f/.nops 4194305;ret x1/.end => 2 2
.func f/f: nop;.func g/.end => 2 6
.func f/jal x0,b;.func g/.end => 2 6
.func f/addi x1,x1,2048;.func g/.end => 2 6
.func f/.nops 4194305;.func g/.end => 2 6
.func f/jal x0,b;f: nop/.end => 2 5
.func f/addi x1,x1,2048;f: nop/.end => 2 5
.func f/.nops 4194305;f: nop/.end => 2 5
.func f/addi x1,x1,2048;jal x0,b/.end => 2 4
.func f/.nops 4194305;jal x0,b/.end => 2 4
.func f/.nops 4194305;addi x1,x1,2048/.end => 2 3";

#[test]
fn of_two_faults_in_a_line_one_is_told(rt: HostRuntime) -> Result<(), NoMemory> {
    check_faults(&rt, PAIRS)
}

// Instructions, and their words in hexadecimal.
const WORDS: &str = "\
add x20,x9,x25 => 01948a33
sub x3,x4,x6 => 406201b3
sll x23,x3,x13 => 00d19bb3
slt x2,x5,x27 => 01b2a133
sltu x26,x4,x15 => 00f23d33
xor x5,x27,x3 => 003dc2b3
srl x7,x14,x3 => 003753b3
sra x25,x3,x14 => 40e1dcb3
or x2,x8,x18 => 01246133
and x26,x9,x7 => 0074fd33
mul x19,x11,x6 => 026589b3
mulh x12,x23,x6 => 026b9633
mulhsu x4,x3,x13 => 02d1a233
mulhu x31,x27,x20 => 034dbfb3
div x29,x29,x23 => 037eceb3
divu x19,x15,x11 => 02b7d9b3
rem x15,x5,x19 => 0332e7b3
remu x31,x21,x28 => 03caffb3
addw x18,x4,x7 => 0072093b
subw x26,x10,x21 => 41550d3b
sllw x9,x31,x26 => 01af94bb
srlw x2,x4,x20 => 0142513b
sraw x21,x22,x31 => 41fb5abb
mulw x29,x4,x5 => 02520ebb
divw x17,x30,x4 => 024f48bb
divuw x3,x19,x28 => 03c9d1bb
remw x18,x24,x22 => 036c693b
remuw x1,x29,x22 => 036ef0bb
addi x10,x7,-2048 => 80038513
slti x13,x18,2047 => 7ff92693
sltiu x25,x25,-2048 => 800cbc93
xori x10,x28,1242 => 4dae4513
ori x17,x8,1478 => 5c646893
andi x17,x26,0 => 000d7893
addiw x14,x9,2047 => 7ff4871b
slli x9,x14,0 => 00071493
srli x31,x11,63 => 03f5df93
srai x0,x9,53 => 4354d013
slliw x23,x20,8 => 008a1b9b
srliw x3,x29,31 => 01fed19b
sraiw x25,x25,31 => 41fcdc9b
lb x25,2047(x4) => 7ff20c83
lh x13,2047(x7) => 7ff39683
lw x21,-2048(x0) => 80002a83
ld x9,-1(x1) => fff0b483
lbu x4,-345(x24) => ea7c4203
lhu x9,-1(x23) => fffbd483
lwu x30,-2048(x31) => 800fef03
sb x29,0(x19) => 01d98023
sh x5,-2048(x21) => 805a9023
sw x16,2047(x1) => 7f00afa3
sd x13,2047(x1) => 7ed0bfa3
lui x19,190862 => 2e98e9b7
auipc x16,0 => 00000817
jalr x22,-223(x21) => f21a8b67
lr.w x14,(x12) => 1006272f
sc.w x15,x25,(x14) => 199727af
amoswap.w x12,x31,(x22) => 09fb262f
amoadd.w x1,x1,(x17) => 0018a0af
amoxor.w x30,x16,(x12) => 21062f2f
amoand.w x22,x28,(x22) => 61cb2b2f
amoor.w x23,x5,(x14) => 40572baf
amomin.w x6,x14,(x30) => 80ef232f
amomax.w x12,x21,(x13) => a156a62f
amominu.w x30,x0,(x30) => c00f2f2f
amomaxu.w x22,x5,(x7) => e053ab2f
lr.d x24,(x12) => 10063c2f
sc.d x30,x11,(x27) => 18bdbf2f
amoswap.d x21,x5,(x25) => 085cbaaf
amoadd.d x29,x25,(x5) => 0192beaf
amoxor.d x10,x10,(x8) => 20a4352f
amoand.d x1,x9,(x29) => 609eb0af
amoor.d x9,x30,(x22) => 41eb34af
amomin.d x9,x8,(x1) => 8080b4af
amomax.d x0,x6,(x8) => a064302f
amominu.d x27,x12,(x13) => c0c6bdaf
amomaxu.d x1,x16,(x13) => e106b0af
fence => 0ff0000f
ecall => 00000073
ebreak => 00100073
nop => 00000013
ret => 00008067
beq x18,x15,61440 => 80f90063
bne x16,x16,69630 => 7f081fe3
blt x8,x3,65534 => fe344fe3
bge x29,x26,68474 => 37aedde3
bltu x8,x9,65728 => 0c946063
bgeu x1,x28,65532 => ffc0fee3
jal x0,1114110 => 7ffff06f
jal x9,0 => 800f04ef
jal x11,65532 => ffdff5ef
jal x9,67584 => 001004ef
jal x30,290118 => 54736f6f";

/// The text of a function with one statement.
fn function_of(alloc: Global, line: &str) -> Result<Vec<u8>, NoMemory> {
    let text = format!(in alloc; ".func f;{line};.end")?;
    Ok(text.into_bytes())
}

#[test]
fn words_are_those_of_the_stock_assembler(rt: HostRuntime) -> Result<(), NoMemory> {
    let alloc = rt.alloc();
    for row in WORDS.lines() {
        if let Some((line, word)) = row.split_once(" => ") {
            let text = function_of(alloc, line)?;
            if text.len() <= 67108864 {
                match assemble(alloc, &text) {
                    Ok(program) => {
                        let word = u32::from_str_radix(word, 16).unwrap_or(0);
                        assert_eq!(rt; program.text.as_slice(), [word].as_slice(), "{row}");
                    }
                    Err(_) => panic!(rt; "a fault"),
                }
            }
        }
    }
    Ok(())
}

fn check_named(rt: &impl Abort, found: &[Named], wanted: &[(&[u8], u64, u64)]) {
    assert_eq!(rt; found.len(), wanted.len());
    for i in 0..found.len().min(wanted.len()) {
        assert_eq!(rt; found[i].name.as_slice(), wanted[i].0);
        assert_eq!(rt; (found[i].from, found[i].to), (wanted[i].1, wanted[i].2));
    }
}

fn check_program(
    rt: &(impl Abort + AllocGlobal),
    text: &[u8],
    bytes: &[u8],
    entry: u64,
    funcs: &[(&[u8], u64, u64)],
    objects: &[(&[u8], u64, u64)],
    fixups: &[Fixup],
)
    requires { length text.now ≤ 67108864 }
{
    let Ok(program) = assemble(rt.alloc(), text) else {
        panic!(rt; "a fault");
    };
    assert_eq!(rt; program.bytes.as_slice(), bytes);
    assert_eq!(rt; program.entry, entry);
    check_named(rt, program.funcs.as_slice(), funcs);
    check_named(rt, program.objects.as_slice(), objects);
    assert_eq!(rt; program.fixups.as_slice(), fixups);
}

#[test]
fn the_parts_of_a_program(rt: HostRuntime) {
    check_program(
        &rt,
        HI,
        b"hi\n",
        0x10000,
        &[(b"main", 0x10000, 0x10020)],
        &[],
        &[],
    );
    let slot = Fixup {
        at: 0x11000,
        kind: 2,
        func: 1,
    };
    check_program(
        &rt,
        VTABLE,
        &[0x1c, 0, 1, 0, 0, 0, 0, 0],
        0x10000,
        &[(b"main", 0x10000, 0x1001c), (b"f", 0x1001c, 0x10024)],
        &[(b"_ZTV1F", 0x11000, 0x11008)],
        &[slot],
    );
    let call = Fixup {
        at: 0x1000c,
        kind: 19,
        func: 1,
    };
    let jump = Fixup {
        at: 0x10014,
        kind: 17,
        func: 0,
    };
    check_program(
        &rt,
        CALLS,
        b"",
        0x10018,
        &[(b"main", 0x10000, 0x10018), (b"leaf", 0x10018, 0x1001c)],
        &[],
        &[call, jump],
    );
}
