//! The statements of a text.

ghost use Rattle.std.specs.Prelude.{◌≡◌, ◌≤◌, ◌<◌, ◌+◌, ◌-◌, ◌*◌, ◌^◌, ◌++◌, length, map, true, IfOk, OnOk};
ghost use Rattle.std.specs.List.{slice_split, list_all, flat_map, sum_by};
ghost use Rattle.asm_text.specs.Tokens.{is_name};
ghost use Rattle.asm_text.specs.Statements.{is_semicolon, labels_of, after_labels, whole, statement_of, part_statements, line_statements, statements_from, statements, weight};

use crate::body::Body;
use crate::keyword::keyword_of;
use crate::lexer::tokens_of;
use crate::name::{Name, is_name};
use crate::operand::operands;
use crate::read::read;
use crate::token::Token;
use oc_base::fault::NoMemory;
use oc_base::items::Items;
use std::alloc::{AllocError, Global};
use texts::lines_of;

/// A statement with its labels, and the number of its line, counted from 1.
#[derive(Debug, Drop)]
pub struct Statement {
    pub line: u32,
    pub labels: Items<Name>,
    pub body: Body,
}

/// What follows the labels.
#[tactic(auto, unfolding(crate::specs::Statements::whole))]
fn whole(alloc: Global, tokens: &[Token]) -> Result<Body, NoMemory>
    ensures { IfOk result (λ body. body ≡ whole tokens.now) }
{
    match tokens {
        [] => Ok(Body::Nothing),
        [Token::Word(name), more @ ..] => match keyword_of(name.as_slice()) {
            Some(keyword) => read(alloc, keyword, &operands(alloc, more)?),
            None => Ok(Body::Unknown),
        },
        _ => Ok(Body::Unknown),
    }
}

/// Whether every word that stands as a label is a name.
fn are_names(tokens: &[Token]) -> bool
    ensures { result ≡ list_all is_name (labels_of tokens.now) }
{
    let mut rest = tokens;
    let mut all = true;
    while let [Token::Word(name), Token::Colon, more @ ..] = rest {
        all = all && is_name(name.as_slice());
        rest = more;
    }
    all
}

/// The labels, where each of them is a name.
fn labels_of(alloc: Global, tokens: &[Token]) -> Result<Items<Name>, NoMemory>
    requires { list_all is_name (labels_of tokens.now) ≡ true }
    ensures { IfOk result (λ labels. labels ≡ labels_of tokens.now) }
{
    let mut labels = Items::new(alloc);
    let mut rest = tokens;
    while let [Token::Word(word), Token::Colon, more @ ..] = rest {
        let name = Name::of(alloc, word.as_slice())?.unwrap();
        labels.push(name)?;
        rest = more;
    }
    Ok(labels)
}

fn after_labels<'a>(tokens: &'a [Token]) -> &'a [Token]
    ensures { result.now ≡ after_labels tokens.now }
{
    let mut rest = tokens;
    while let [Token::Word(_), Token::Colon, more @ ..] = rest {
        rest = more;
    }
    rest
}

fn statement_of(alloc: Global, line: u32, tokens: &[Token]) -> Result<Statement, NoMemory>
    ensures { IfOk result (λ x. x ≡ statement_of line tokens.now) }
{
    if !are_names(tokens) {
        return Ok(Statement {
            line,
            labels: Items::new(alloc),
            body: Body::Unknown,
        });
    }
    Ok(Statement {
        line,
        labels: labels_of(alloc, tokens)?,
        body: whole(alloc, after_labels(tokens))?,
    })
}

fn push_part(
    alloc: Global,
    all: &mut Vec<Statement>,
    line: u32,
    part: &[Token],
) -> Result<(), NoMemory>
    ensures { OnOk result (all.new.items ≡ all.old.items ++ part_statements line part.now) }
{
    if !part.is_empty() {
        all.push(statement_of(alloc, line, part)?)?;
    }
    Ok(())
}

#[tactic(auto, using(crate::proofs::Parts::part_more))]
fn push_parts(
    alloc: Global,
    all: &mut Vec<Statement>,
    line: u32,
    parts: &[&[Token]],
) -> Result<(), NoMemory>
    ensures { OnOk result (all.new.items ≡ all.old.items ++ flat_map (λ p. part_statements line p.now) parts.now) }
{
    for part in parts {
        push_part(alloc, all, line, part)?;
    }
    Ok(())
}

fn parts_of(alloc: Global, tokens: &[Token]) -> Result<Vec<&[Token]>, AllocError>
    ensures { IfOk result (λ v. map (λ x. x.now) v.items ≡ slice_split is_semicolon tokens.now) }
{
    tokens
        .split(|t| matches!(t, Token::Semicolon))
        .collect(alloc)
}

#[tactic(auto, using(crate::proofs::Parts::flat_of_map))]
fn push_line(alloc: Global, all: &mut Vec<Statement>, n: u32, line: &[u8]) -> Result<(), NoMemory>
    ensures { OnOk result (all.new.items ≡ all.old.items ++ line_statements n line.now) }
{
    let tokens = tokens_of(alloc, line)?;
    let parts = parts_of(alloc, &tokens)?;
    push_parts(alloc, all, n, &parts)
}

#[tactic(auto, using(crate::proofs::Parts::lines_done))]
fn statements_of_lines(alloc: Global, lines: &[&[u8]]) -> Result<Vec<Statement>, NoMemory>
    requires { length lines.now < 2 ^ 32 - 1 }
    ensures { IfOk result (λ v. v.items ≡ statements_from 1 (map (λ l. l.now) lines.now)) }
{
    let mut all = Vec::new(alloc);
    for i in 0..lines.len() {
        push_line(alloc, &mut all, i as u32 + 1, lines[i])?;
    }
    Ok(all)
}

/// The statements of a text, in order.
///
/// A text has few: one for each two bytes at most, where each counts for one and for the bytes that the name of its
/// function or object takes in a table of strings.
#[tactic(auto, unfolding(crate::specs::Statements::statements), using(crate::proofs::Weights::statements_le, crate::proofs::Weights::lines_le))]
pub fn statements_of(alloc: Global, text: &[u8]) -> Result<Vec<Statement>, NoMemory>
    requires { length text.now < 2 ^ 31 }
    ensures statements { IfOk result (λ v. v.items ≡ statements text.now) }
    ensures few { IfOk result (λ v. sum_by weight v.items ≤ 2 * length text.now) }
{
    let lines = lines_of(alloc, text)?;
    statements_of_lines(alloc, &lines)
}
