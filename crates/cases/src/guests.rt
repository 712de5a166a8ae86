//! Guests as text: a name and the statements of each, with `/` for a newline.

use std::alloc::{AllocError, Global};

/// - `countdown` calls `work` twice, which counts down, and exits with the low part of an AUIPC's value.
/// - `recursion` calls itself, with its return addresses on the stack; `dead link` does so once more, and then overwrites the deepest of them.
/// - `loops` branches and jumps to blocks of its own, and to themselves; `jumps` jumps with and without a link, in the function and out
///   of it; `fork` branches over one block, `over N` over N words; `last falls` ends in a branch.
/// - `zero word` has a function whose one word is zero; `faults` has functions with a fault each, and a second one behind it.
/// - `far call` calls by an AUIPC and a JALR; `last call` calls in the last word of its text; `apart` has two calls of one function, of
///   which the second is far away.
/// - `stored link` overwrites one byte of a link and computes on the word; `to second` jumps to the second word of a far call.
/// - `table` calls through a table of functions; `own table` puts a plain number into it first.
/// - `headers` exits with what stands for its program headers on the stack.
const GUESTS: &str = "\
countdown: .func main; jal x1,work; jal x1,work; addi x17,x0,93; ecall; .end/.func work; addi x5,x0,2; top: addi x5,x5,-1; bne x5,x0,top; auipc x6,0; andi x10,x6,63; ret; .end
recursion: .func main; addi x10,x0,3; jal x1,rec; addi x17,x0,93; ecall; .end/.func rec; beq x10,x0,done; addi x2,x2,-16; sd x1,0(x2); addi x10,x10,-1; jal x1,rec; ld x1,0(x2); addi x2,x2,16; addi x10,x10,2/done: ret; .end
dead link: .func main; addi x10,x0,4; jal x1,rec; sd x0,-64(x2); addi x17,x0,93; ecall; .end/.func rec; beq x10,x0,done; addi x2,x2,-16; sd x1,0(x2); addi x10,x10,-1; jal x1,rec; ld x1,0(x2); addi x2,x2,16; addi x10,x10,2/done: ret; .end
loops: .func main; addi x5,x0,3; again: addi x5,x5,-1; bne x5,x0,again; jal x0,again/one: beq x0,x0,one; two: jal x0,two; ebreak; .end
jumps: .func main; jal x0,over; addi x5,x0,1; over: jalr x0,0(x5); jalr x1,0(x5); addi x6,x0,1; jal x1,main; jal x0,leaf; ret; .end/.func leaf; ret; .end
zero word: .func main; addi x17,x0,93; ecall; .end; .func bad; .word 0; .end
faults: .func a; nop; beq x0,x0,0x10000; beq x0,x0,0x1000c; .end/.func b; beq x0,x0,0x10000; .end/.func c; beq x0,x0,0x10002; .end/.func d; nop; beq x0,x0,0x10016; .end/.func e; jal x0,0x10002; .word 0; .end/.func f; .word 0; jal x0,0x10022; .end/.func g; nop; beq x0,x0,0x1002e; beq x0,x0,0x10000; .end
neighbours: .func a; nop; nop; .end; .func b; nop; nop; .end
far call: .func main; call leaf; addi x17,x0,93; ecall; .end/.func leaf; ret; .end
fork: .func main; addi x5,x0,3; blt x5,x6,less; addi x6,x0,1; less: addi x7,x0,2; ret; .end
last falls: .func main; jal x1,last; .end/.func last; beq x5,x6,last; .end
over 1020: .func main; addi x17,x0,93; beq x0,x0,far; .nops 1020; far: ecall; .end
over 1021: .func main; addi x17,x0,93; beq x0,x0,far; .nops 1021; far: ecall; .end
over 1022: .func main; addi x17,x0,93; beq x0,x0,far; .nops 1022; far: ecall; .end
last call: .func leaf; ret; .end; .func start; jal x1,main; .end/.func main; jal x1,leaf; .end; .entry start
short: .func main; jal x1,work; ret; .end/.func work; ret; .end
apart: .func a; jal x1,f; .nops 200000; .end; .func f; ret; .end/.func b; .nops 200000; jal x1,f; .end
stored link: .func start; jal x1,mid; .end; .func mid; jal x1,leaf; .end/.func leaf; sd x1,-8(x2); sb x0,-7(x2); ld x5,-8(x2); andi x10,x5,255/addi x17,x0,93; ecall; .end
added link: .func main; jal x1,f; .end; .func f; add x6,x1,x1; .end
link exit: .func main; jal x1,f; .end; .func f; addi x10,x1,0; addi x17,x0,93; ecall; .end
past link: .func main; jal x1,f; .end; .func f; jalr x0,4(x1); .end
to second: .func main; lui x5,16; jalr x0,16(x5); nop; call leaf; .end/.func leaf; ret; .end
to region: .func main; lui x5,18; jalr x0,0(x5); .end
line: .func main; addi x10,x0,1; addi x17,x0,64; lui x11,17; addi x12,x0,3; ecall; addi x10,x0,0; addi x17,x0,93; ecall; .end; .data; .ascii \"hi\\n\"
echo: .func main; addi x10,x0,0; lui x11,65280; addi x12,x0,5; addi x17,x0,63; ecall; addi x12,x10,0; addi x10,x0,1; addi x17,x0,64; ecall; addi x17,x0,93; ecall; .end
table: .func main; lui x8,17; ld x5,0(x8); jalr x1,0(x5); ld x5,0(x8); jalr x1,0(x5); addi x17,x0,93; ecall; .end; .func f; addi x10,x10,5; ret; .end/.data; .object _ZTV1F; .slot f; .endobject
own table: .func main; lui x8,17; lui x5,16; addi x5,x5,40; sd x5,0(x8); ld x5,0(x8); jalr x1,0(x5); ld x5,0(x8); jalr x1,0(x5); addi x17,x0,93; ecall; .end; .func f; addi x10,x10,5; ret; .end/.data; .object _ZTV1F; .slot f; .endobject
name: .func main; ld x5,8(x2); lbu x10,0(x5); addi x17,x0,93; ecall; .end
headers: .func main; ld x10,40(x2); ld x11,72(x2); add x10,x10,x11; addi x17,x0,93; ecall; .end
exit: .func main; addi x17,x0,93; ecall; .end
endless: .func main; again: jal x0,again; .end
seven: .func main; addi x5,x0,7; top: addi x5,x5,-1; bne x5,x0,top; addi x17,x0,93; ecall; .end
waits: .func main; lui x10,17; addi x11,x0,128; addi x12,x0,0; addi x13,x0,0; addi x17,x0,98; ecall; .end; .data; .dword 0
clones: .func main; again: lui x10,16; addi x10,x10,256; lui x11,65280; addi x17,x0,220; ecall; jal x0,again; .end
writes: .func main; lui x11,65280; again: addi x10,x0,1; lui x12,1; addi x17,x0,64; ecall; jal x0,again; .end
";

/// The statements of the guest with this name; empty where there is none.
pub fn guest(name: &str) -> &'static str {
    for line in GUESTS.lines() {
        let (known, text) = line.split_once(": ").unwrap_or(("", ""));
        if known == name {
            return text;
        }
    }
    ""
}

/// The bytes of a text, with a newline for each `/`.
pub fn with_newlines(alloc: Global, text: &str) -> Result<Vec<u8>, AllocError> {
    let mut bytes = Vec::new(alloc);
    for byte in text.bytes() {
        bytes.push(if byte == b'/' { b'\n' } else { byte })?;
    }
    Ok(bytes)
}
