//! The names of statements.

ghost use Rattle.std.specs.Prelude.{◌≡◌, IfSome, Some, if◌then◌else◌};
ghost use Rattle.std.specs.Str.{bytes_eq};
ghost use Rattle.asm_text.specs.Keywords.{lookup, alu_names, mul_names, alu_32_names, imm_names, shift_names, branch_names, load_names, store_names, atomic_w_names, atomic_d_names, other_names, directive_names, keyword_of, section_of, IsGiven};
ghost use Rattle.rv_isa.specs.Instr.{IsStoreWidth};
ghost use Rattle.asm_text.specs.declared.keyword.Keyword.TheVariants.{Amo};

use rv_isa::instr::{AluOp, AmoOp, Cond, ImmOp, ShiftOp, Width};

/// A part of the program.
#[derive(Clone, Copy, Debug, PartialEq, Eq)]
pub enum Section {
    Text,
    Data,
}

/// What the first word of a statement asks for: an instruction or a directive.
#[derive(Clone, Copy, Debug)]
pub enum Keyword {
    Alu(AluOp),
    AluImm(ImmOp),
    Shift(ShiftOp),
    Branch(Cond),
    Load(Width),
    Store(Width),
    Lr { wide: bool },
    Sc { wide: bool },
    Amo { op: AmoOp, wide: bool },
    Lui,
    Auipc,
    Jal,
    Jalr,
    Call,
    Fence,
    Ecall,
    Ebreak,
    Nop,
    Ret,
    ToText,
    ToData,
    Func,
    End,
    Entry,
    Word,
    Nops,
    Byte,
    Dword,
    Space,
    Ascii,
    Object,
    EndObject,
    Slot,
}

/// What a table says whose first row is this one: `value` where the name is `word`, or else what the rest says.
fn row<T: Copy>(name: &[u8], word: &[u8], value: T, rest: Option<T>) -> Option<T>
    ensures { result ≡ (if bytes_eq name.now word.now then Some value else rest) }
{
    if name == word { Some(value) } else { rest }
}

fn alu_named(name: &[u8]) -> Option<AluOp>
    ensures { result ≡ lookup alu_names name.now }
{
    let rest = row(name, b"and", AluOp::And, None);
    let rest = row(name, b"or", AluOp::Or, rest);
    let rest = row(name, b"sra", AluOp::Sra, rest);
    let rest = row(name, b"srl", AluOp::Srl, rest);
    let rest = row(name, b"xor", AluOp::Xor, rest);
    let rest = row(name, b"sltu", AluOp::Sltu, rest);
    let rest = row(name, b"slt", AluOp::Slt, rest);
    let rest = row(name, b"sll", AluOp::Sll, rest);
    let rest = row(name, b"sub", AluOp::Sub, rest);
    row(name, b"add", AluOp::Add, rest)
}

fn mul_named(name: &[u8]) -> Option<AluOp>
    ensures { result ≡ lookup mul_names name.now }
{
    let rest = row(name, b"remu", AluOp::Remu, None);
    let rest = row(name, b"rem", AluOp::Rem, rest);
    let rest = row(name, b"divu", AluOp::Divu, rest);
    let rest = row(name, b"div", AluOp::Div, rest);
    let rest = row(name, b"mulhu", AluOp::Mulhu, rest);
    let rest = row(name, b"mulhsu", AluOp::Mulhsu, rest);
    let rest = row(name, b"mulh", AluOp::Mulh, rest);
    row(name, b"mul", AluOp::Mul, rest)
}

fn alu_32_named(name: &[u8]) -> Option<AluOp>
    ensures { result ≡ lookup alu_32_names name.now }
{
    let rest = row(name, b"remuw", AluOp::Remuw, None);
    let rest = row(name, b"remw", AluOp::Remw, rest);
    let rest = row(name, b"divuw", AluOp::Divuw, rest);
    let rest = row(name, b"divw", AluOp::Divw, rest);
    let rest = row(name, b"mulw", AluOp::Mulw, rest);
    let rest = row(name, b"sraw", AluOp::Sraw, rest);
    let rest = row(name, b"srlw", AluOp::Srlw, rest);
    let rest = row(name, b"sllw", AluOp::Sllw, rest);
    let rest = row(name, b"subw", AluOp::Subw, rest);
    row(name, b"addw", AluOp::Addw, rest)
}

fn imm_named(name: &[u8]) -> Option<ImmOp>
    ensures { result ≡ lookup imm_names name.now }
{
    let rest = row(name, b"addiw", ImmOp::Addiw, None);
    let rest = row(name, b"andi", ImmOp::Andi, rest);
    let rest = row(name, b"ori", ImmOp::Ori, rest);
    let rest = row(name, b"xori", ImmOp::Xori, rest);
    let rest = row(name, b"sltiu", ImmOp::Sltiu, rest);
    let rest = row(name, b"slti", ImmOp::Slti, rest);
    row(name, b"addi", ImmOp::Addi, rest)
}

fn shift_named(name: &[u8]) -> Option<ShiftOp>
    ensures { result ≡ lookup shift_names name.now }
{
    let rest = row(name, b"sraiw", ShiftOp::Sraiw, None);
    let rest = row(name, b"srliw", ShiftOp::Srliw, rest);
    let rest = row(name, b"slliw", ShiftOp::Slliw, rest);
    let rest = row(name, b"srai", ShiftOp::Srai, rest);
    let rest = row(name, b"srli", ShiftOp::Srli, rest);
    row(name, b"slli", ShiftOp::Slli, rest)
}

fn branch_named(name: &[u8]) -> Option<Cond>
    ensures { result ≡ lookup branch_names name.now }
{
    let rest = row(name, b"bgeu", Cond::Geu, None);
    let rest = row(name, b"bltu", Cond::Ltu, rest);
    let rest = row(name, b"bge", Cond::Ge, rest);
    let rest = row(name, b"blt", Cond::Lt, rest);
    let rest = row(name, b"bne", Cond::Ne, rest);
    row(name, b"beq", Cond::Eq, rest)
}

fn load_named(name: &[u8]) -> Option<Width>
    ensures { result ≡ lookup load_names name.now }
{
    let rest = row(name, b"lwu", Width::Wu, None);
    let rest = row(name, b"lhu", Width::Hu, rest);
    let rest = row(name, b"lbu", Width::Bu, rest);
    let rest = row(name, b"ld", Width::D, rest);
    let rest = row(name, b"lw", Width::W, rest);
    let rest = row(name, b"lh", Width::H, rest);
    row(name, b"lb", Width::B, rest)
}

/// A row of the table of stores.
fn store_row(name: &[u8], word: &[u8], width: Width, rest: Option<Width>) -> Option<Width>
    requires width { IsStoreWidth width }
    requires rest { IfSome rest IsStoreWidth }
    ensures row { result ≡ (if bytes_eq name.now word.now then Some width else rest) }
    ensures width { IfSome result IsStoreWidth }
{
    if name == word { Some(width) } else { rest }
}

fn store_named(name: &[u8]) -> Option<Width>
    ensures table { result ≡ lookup store_names name.now }
    ensures width { IfSome result IsStoreWidth }
{
    let rest = store_row(name, b"sd", Width::D, None);
    let rest = store_row(name, b"sw", Width::W, rest);
    let rest = store_row(name, b"sh", Width::H, rest);
    store_row(name, b"sb", Width::B, rest)
}

/// A row of a table of keywords.
fn keyword_row(name: &[u8], word: &[u8], keyword: Keyword, rest: Option<Keyword>) -> Option<Keyword>
    requires keyword { IsGiven keyword }
    requires rest { IfSome rest IsGiven }
    ensures row { result ≡ (if bytes_eq name.now word.now then Some keyword else rest) }
    ensures given { IfSome result IsGiven }
{
    if name == word { Some(keyword) } else { rest }
}

/// The row of an atomic operation.
fn amo_row(
    name: &[u8],
    word: &[u8],
    op: AmoOp,
    wide: bool,
    rest: Option<Keyword>,
) -> Option<Keyword>
    requires { IfSome rest IsGiven }
    ensures row { result ≡ (if bytes_eq name.now word.now then Some (Amo op wide) else rest) }
    ensures given { IfSome result IsGiven }
{
    keyword_row(name, word, Keyword::Amo { op, wide }, rest)
}

fn atomic_w_named(name: &[u8]) -> Option<Keyword>
    ensures table { result ≡ lookup atomic_w_names name.now }
    ensures given { IfSome result IsGiven }
{
    let rest = amo_row(name, b"amomaxu.w", AmoOp::Maxu, false, None);
    let rest = amo_row(name, b"amominu.w", AmoOp::Minu, false, rest);
    let rest = amo_row(name, b"amomax.w", AmoOp::Max, false, rest);
    let rest = amo_row(name, b"amomin.w", AmoOp::Min, false, rest);
    let rest = amo_row(name, b"amoor.w", AmoOp::Or, false, rest);
    let rest = amo_row(name, b"amoand.w", AmoOp::And, false, rest);
    let rest = amo_row(name, b"amoxor.w", AmoOp::Xor, false, rest);
    let rest = amo_row(name, b"amoadd.w", AmoOp::Add, false, rest);
    let rest = amo_row(name, b"amoswap.w", AmoOp::Swap, false, rest);
    let rest = keyword_row(name, b"sc.w", Keyword::Sc { wide: false }, rest);
    keyword_row(name, b"lr.w", Keyword::Lr { wide: false }, rest)
}

fn atomic_d_named(name: &[u8]) -> Option<Keyword>
    ensures table { result ≡ lookup atomic_d_names name.now }
    ensures given { IfSome result IsGiven }
{
    let rest = amo_row(name, b"amomaxu.d", AmoOp::Maxu, true, None);
    let rest = amo_row(name, b"amominu.d", AmoOp::Minu, true, rest);
    let rest = amo_row(name, b"amomax.d", AmoOp::Max, true, rest);
    let rest = amo_row(name, b"amomin.d", AmoOp::Min, true, rest);
    let rest = amo_row(name, b"amoor.d", AmoOp::Or, true, rest);
    let rest = amo_row(name, b"amoand.d", AmoOp::And, true, rest);
    let rest = amo_row(name, b"amoxor.d", AmoOp::Xor, true, rest);
    let rest = amo_row(name, b"amoadd.d", AmoOp::Add, true, rest);
    let rest = amo_row(name, b"amoswap.d", AmoOp::Swap, true, rest);
    let rest = keyword_row(name, b"sc.d", Keyword::Sc { wide: true }, rest);
    keyword_row(name, b"lr.d", Keyword::Lr { wide: true }, rest)
}

fn other_named(name: &[u8]) -> Option<Keyword>
    ensures table { result ≡ lookup other_names name.now }
    ensures given { IfSome result IsGiven }
{
    let rest = keyword_row(name, b"ret", Keyword::Ret, None);
    let rest = keyword_row(name, b"nop", Keyword::Nop, rest);
    let rest = keyword_row(name, b"ebreak", Keyword::Ebreak, rest);
    let rest = keyword_row(name, b"ecall", Keyword::Ecall, rest);
    let rest = keyword_row(name, b"fence", Keyword::Fence, rest);
    let rest = keyword_row(name, b"call", Keyword::Call, rest);
    let rest = keyword_row(name, b"jalr", Keyword::Jalr, rest);
    let rest = keyword_row(name, b"jal", Keyword::Jal, rest);
    let rest = keyword_row(name, b"auipc", Keyword::Auipc, rest);
    keyword_row(name, b"lui", Keyword::Lui, rest)
}

fn directive_named(name: &[u8]) -> Option<Keyword>
    ensures table { result ≡ lookup directive_names name.now }
    ensures given { IfSome result IsGiven }
{
    let rest = keyword_row(name, b".slot", Keyword::Slot, None);
    let rest = keyword_row(name, b".endobject", Keyword::EndObject, rest);
    let rest = keyword_row(name, b".object", Keyword::Object, rest);
    let rest = keyword_row(name, b".ascii", Keyword::Ascii, rest);
    let rest = keyword_row(name, b".space", Keyword::Space, rest);
    let rest = keyword_row(name, b".dword", Keyword::Dword, rest);
    let rest = keyword_row(name, b".byte", Keyword::Byte, rest);
    let rest = keyword_row(name, b".nops", Keyword::Nops, rest);
    let rest = keyword_row(name, b".word", Keyword::Word, rest);
    let rest = keyword_row(name, b".entry", Keyword::Entry, rest);
    let rest = keyword_row(name, b".end", Keyword::End, rest);
    let rest = keyword_row(name, b".func", Keyword::Func, rest);
    let rest = keyword_row(name, b".data", Keyword::ToData, rest);
    keyword_row(name, b".text", Keyword::ToText, rest)
}

#[tactic(auto, unfolding(crate::specs::Keywords::keyword_of))]
/// What a statement of this name asks for.
pub fn keyword_of(name: &[u8]) -> Option<Keyword>
    ensures keyword { result ≡ keyword_of name.now }
    ensures given { IfSome result IsGiven }
{
    if let Some(keyword) = directive_named(name) {
        return Some(keyword);
    }
    if let Some(keyword) = other_named(name) {
        return Some(keyword);
    }
    if let Some(op) = imm_named(name) {
        return Some(Keyword::AluImm(op));
    }
    if let Some(width) = load_named(name) {
        return Some(Keyword::Load(width));
    }
    if let Some(width) = store_named(name) {
        return Some(Keyword::Store(width));
    }
    if let Some(cond) = branch_named(name) {
        return Some(Keyword::Branch(cond));
    }
    if let Some(op) = shift_named(name) {
        return Some(Keyword::Shift(op));
    }
    if let Some(op) = alu_named(name) {
        return Some(Keyword::Alu(op));
    }
    if let Some(op) = mul_named(name) {
        return Some(Keyword::Alu(op));
    }
    if let Some(op) = alu_32_named(name) {
        return Some(Keyword::Alu(op));
    }
    if let Some(keyword) = atomic_w_named(name) {
        return Some(keyword);
    }
    atomic_d_named(name)
}

/// The section that a statement stands in, unless it may stand in both.
pub fn section_of(keyword: Keyword) -> Option<Section>
    ensures { result ≡ section_of keyword }
{
    match keyword {
        Keyword::ToText | Keyword::ToData | Keyword::Entry | Keyword::Word => None,
        Keyword::Byte
        | Keyword::Dword
        | Keyword::Space
        | Keyword::Ascii
        | Keyword::Object
        | Keyword::EndObject
        | Keyword::Slot => Some(Section::Data),
        _ => Some(Section::Text),
    }
}
