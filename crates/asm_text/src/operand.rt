//! Operands: each is the tokens between two commas.

ghost use Rattle.std.specs.Prelude.{◌≡◌, [], false, map, IfOk, Some, None};
ghost use Rattle.std.specs.List.{slice_split};
ghost use Rattle.asm_text.specs.Operands.{is_comma, operands, register_of, register_in, number_in, name_in, target_in, based_in, base_in, unescaped, text_in};

use crate::name::{Name, is_name};
use crate::number::number_of;
use crate::token::Token;
use oc_base::fault::NoMemory;
use oc_base::items::Items;
use rv_isa::fields::Reg;
use std::alloc::{AllocError, Global};

/// What a jump or a branch aims at.
#[derive(Debug, Drop)]
pub enum Target {
    Name(Name),
    /// An absolute address.
    Address(i128),
}

fn parts_of(alloc: Global, tokens: &[Token]) -> Result<Vec<&[Token]>, AllocError>
    ensures { IfOk result (λ v. map (λ x. x.now) v.items ≡ slice_split is_comma tokens.now) }
{
    tokens.split(|t| matches!(t, Token::Comma)).collect(alloc)
}

/// The operands, which commas part.
pub fn operands(alloc: Global, tokens: &[Token]) -> Result<Vec<&[Token]>, NoMemory>
    ensures { IfOk result (λ v. map (λ x. x.now) v.items ≡ operands tokens.now) }
{
    if tokens.is_empty() {
        return Ok(Vec::new(alloc));
    }
    Ok(parts_of(alloc, tokens)?)
}

/// The register that a word names, `x0` to `x31`.
#[tactic(auto, unfolding(crate::specs::Operands::register_of))]
fn register_of(word: &[u8]) -> Option<Reg>
    ensures { result ≡ register_of word.now }
{
    if word.len() == 2 && word[0] == b'x' && b'0' <= word[1] && word[1] <= b'9' {
        return Reg::new(word[1] - b'0');
    }
    if word.len() == 3
        && word[0] == b'x'
        && b'1' <= word[1]
        && word[1] <= b'3'
        && b'0' <= word[2]
        && word[2] <= b'9'
    {
        return Reg::new(10 * (word[1] - b'0') + (word[2] - b'0'));
    }
    None
}

/// An operand that is a register.
pub fn register_in(operand: &[Token]) -> Option<Reg>
    ensures { result ≡ register_in operand.now }
{
    match operand {
        [Token::Word(word)] => register_of(word.as_slice()),
        _ => None,
    }
}

/// An operand that is a number.
pub fn number_in(operand: &[Token]) -> Option<i128>
    ensures { result ≡ number_in operand.now }
{
    match operand {
        [Token::Word(word)] => number_of(word.as_slice()),
        _ => None,
    }
}

/// An operand that is a name.
pub fn name_in(alloc: Global, operand: &[Token]) -> Result<Option<Name>, NoMemory>
    ensures { IfOk result (λ name. name ≡ name_in operand.now) }
{
    match operand {
        [Token::Word(word)] => Name::of(alloc, word.as_slice()),
        _ => Ok(None),
    }
}

/// An operand that is a name, or else a number.
pub fn target_in(alloc: Global, operand: &[Token]) -> Result<Option<Target>, NoMemory>
    ensures { IfOk result (λ target. target ≡ target_in operand.now) }
{
    if let Some(name) = name_in(alloc, operand)? {
        return Ok(Some(Target::Name(name)));
    }
    match number_in(operand) {
        Some(address) => Ok(Some(Target::Address(address))),
        None => Ok(None),
    }
}

/// An operand that is a number and a register in parentheses, `n(rs1)`.
pub fn based_in(operand: &[Token]) -> Option<(i128, Reg)>
    ensures { result ≡ based_in operand.now }
{
    match operand {
        [
            Token::Word(number),
            Token::Open,
            Token::Word(base),
            Token::Close,
        ] => {
            let number = number_of(number.as_slice())?;
            let base = register_of(base.as_slice())?;
            Some((number, base))
        }
        _ => None,
    }
}

/// An operand that is a register in parentheses, `(rs1)`.
pub fn base_in(operand: &[Token]) -> Option<Reg>
    ensures { result ≡ base_in operand.now }
{
    match operand {
        [Token::Open, Token::Word(base), Token::Close] => register_of(base.as_slice()),
        _ => None,
    }
}

/// The bytes that a quoted text stands for: `\n` is a newline, and nothing else follows a backslash.
fn unescaped(alloc: Global, text: &[u8]) -> Result<Option<Items<u8>>, NoMemory>
    ensures { IfOk result (λ bytes. bytes ≡ unescaped [] false text.now) }
{
    let mut bytes = Vec::new(alloc);
    let mut escaped = false;
    for c in text {
        if escaped && *c != b'n' {
            return Ok(None);
        }
        if !escaped && *c == b'\\' {
            escaped = true;
        } else {
            bytes.push(if escaped { b'\n' } else { *c })?;
            escaped = false;
        }
    }
    if escaped {
        return Ok(None);
    }
    Ok(Some(Items::from_vec(bytes)))
}

/// An operand that is a quoted text.
pub fn text_in(alloc: Global, operand: &[Token]) -> Result<Option<Items<u8>>, NoMemory>
    ensures { IfOk result (λ bytes. bytes ≡ text_in operand.now) }
{
    match operand {
        [Token::Text(text)] => unescaped(alloc, text.as_slice()),
        _ => Ok(None),
    }
}
