//! What is wrong with a part of a plan, in words.

ghost use Rattle.std.specs.Prelude.{◌≡◌, ◌==◌, ◌++◌, [], codes, length, string_bytes, IfOk, OnOk, if◌then◌else◌};
ghost use Rattle.script_words.specs.Words.{in_brackets, func_text, count_text, blocks_text, no_block_text, fault_text, part_text};
ghost use Rattle.script_words.specs.declared.part.Fault.TheVariants.{Count, NoBlock};

use crate::part::{Blocks, Fault, Faulty};
use image::picture::Image;
use looking::func::name_of;
use looking::piece::push_name;
use oc_base::fault::NoMemory;
use oc_base::items::Items;
use std::alloc::Global;
use std::fmt::Write;

fn push_in_brackets(text: &mut String, name: &[u8]) -> Result<(), NoMemory>
    ensures { OnOk result (string_bytes text.new ≡ string_bytes text.old ++ in_brackets name.now) }
{
    if name.is_empty() {
        return Ok(());
    }
    text.push_str(" (")?;
    push_name(text, name)?;
    text.push_str(")")?;
    Ok(())
}

fn push_func(text: &mut String, names: &[Items<u8>], n: u32) -> Result<(), NoMemory>
    ensures { OnOk result (string_bytes text.new ≡ string_bytes text.old ++ func_text names.now n) }
{
    write!(text, "function {n}")?;
    push_in_brackets(text, name_of(names, n))
}

// How many blocks a function has, and how many a plan names.
#[tactic(auto, unfolding(crate::specs::Words::fault_text))]
fn push_count(text: &mut String, blocks: usize, named: usize) -> Result<(), NoMemory>
    ensures { OnOk result (string_bytes text.new ≡ string_bytes text.old ++ fault_text 0 (Count blocks named)) }
{
    let noun = if blocks == 1 { "block" } else { "blocks" };
    write!(text, " has {blocks} {noun}, the plan names {named}")?;
    Ok(())
}

fn push_blocks(text: &mut String, blocks: Blocks) -> Result<(), NoMemory>
    ensures { OnOk result (string_bytes text.new ≡ string_bytes text.old ++ blocks_text blocks.count blocks.cut) }
{
    let count = blocks.count;
    if blocks.cut {
        write!(text, "it has {count}, from 0")?;
        return Ok(());
    }
    write!(
        text,
        "it can't be cut into blocks, and the plan names {count}, from 0"
    )?;
    Ok(())
}

#[tactic(auto, unfolding(crate::specs::Words::no_block_text))]
fn push_missing(text: &mut String, n: u32) -> Result<(), NoMemory>
    ensures { OnOk result (string_bytes text.new ≡ string_bytes text.old ++ no_block_text n) }
{
    write!(text, ": block {n} isn't there: ")?;
    Ok(())
}

fn push_no_block(text: &mut String, n: u32, blocks: Blocks) -> Result<(), NoMemory>
    ensures { OnOk result (string_bytes text.new ≡ string_bytes text.old ++ (no_block_text n ++ blocks_text blocks.count blocks.cut)) }
{
    push_missing(text, n)?;
    push_blocks(text, blocks)
}

#[tactic(auto, unfolding(crate::specs::Words::fault_text))]
fn push_fault(text: &mut String, funcs: usize, fault: Fault) -> Result<(), NoMemory>
    ensures { OnOk result (string_bytes text.new ≡ string_bytes text.old ++ fault_text funcs fault) }
{
    match fault {
        Fault::NotThere => {
            write!(text, " isn't there: the program has {funcs}, from 0")?;
            Ok(())
        }
        Fault::Twice => {
            text.push_str(" is given twice")?;
            Ok(())
        }
        Fault::Count(blocks, named) => push_count(text, blocks, named),
        Fault::BlockTwice(n) => {
            write!(text, ": block {n} is named twice")?;
            Ok(())
        }
        Fault::NoBlock(n, blocks) => push_no_block(text, n, blocks),
    }
}

/// What is wrong with a function of a plan.
#[tactic(auto, unfolding(crate::specs::Words::part_text))]
pub(crate) fn part_text(
    alloc: Global,
    image: &Image,
    names: &[Items<u8>],
    faulty: Faulty,
) -> Result<String, NoMemory>
    ensures { IfOk result (λ text. string_bytes text ≡ part_text image.now names.now faulty) }
{
    let mut text = String::new(alloc);
    push_func(&mut text, names, faulty.func)?;
    push_fault(&mut text, image.funcs().len(), faulty.fault)?;
    Ok(text)
}
