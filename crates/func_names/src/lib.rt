//! The names of functions, from the symbols of their file.
#![tactic(auto)]

ghost use Rattle.std.specs.Prelude.{◌≡◌, ◌≤◌, List, All, find, Some, IfOk, OnOk, if◌then◌else◌};
ghost use Rattle.elf_read.specs.declared.elf.Symbol.{Symbol};
ghost use Rattle.image.specs.declared.ranges.Func.{Func};
ghost use Rattle.relocs.specs.Functions.{is_code};
ghost use Rattle.func_names.specs.Names.{is_of, name_of, names_of};
ghost use Rattle.func_names.specs.Firsts.{first_of};

use elf_read::elf::{Symbol, Symbols};
use image::ranges::Func;
use oc_base::fault::NoMemory;
use oc_base::items::Items;
use std::alloc::Global;
use std::collections::BTreeMap;

// The first symbol that says that it is a function, by its address and its size.
type Firsts<'a> = BTreeMap<(u64, u64), Symbol<'a>>;

fn is_code(s: &Symbol<'_>) -> bool
    ensures { result ≡ is_code s.now }
{
    s.info % 16 == 2 && s.section != 0 && s.value % 4 == 0 && s.size % 4 == 0 && s.size > 0
}

// Notes a symbol, in place of a later one of the same addresses.
fn note<'a>(firsts: &mut Firsts<'a>, s: Symbol<'a>) -> Result<(), NoMemory>
    ensures { OnOk result ((f : Func) → f.from ≤ f.to → first_of firsts.new f ≡ (if is_of f s.entry then Some s.entry else first_of firsts.old f)) }
{
    if !is_code(&s) {
        return Ok(());
    }
    firsts.insert((s.value, s.size), s)?;
    Ok(())
}

fn firsts_of(alloc: Global, symbols: &Symbols) -> Result<Firsts<'_>, NoMemory>
    ensures { IfOk result (λ firsts. (f : Func) → f.from ≤ f.to → first_of firsts f ≡ find (is_of f) symbols.now) }
{
    let mut firsts = BTreeMap::new(alloc);
    let mut i = symbols.len();
    while i > 0 {
        i -= 1;
        note(&mut firsts, symbols.at(i))?;
    }
    Ok(firsts)
}

// The name that symbols give a function, where the map has their first.
#[tactic(auto, unfolding(crate::specs::Names::name_of))]
fn name_in(alloc: Global, firsts: &Firsts<'_>, f: &Func) -> Result<Items<u8>, NoMemory>
    requires { f.now.from ≤ f.now.to }
    ensures { IfOk result (λ name. (symbols : List Symbol) → first_of firsts.now f.now ≡ find (is_of f.now) symbols → name ≡ name_of symbols f.now) }
{
    match firsts.get(&(f.from, f.to - f.from)) {
        Some(symbol) => Items::from_slice(alloc, symbol.name.bytes()),
        None => Ok(Items::new(alloc)),
    }
}

/// The name of each function: that of the first symbol that says of exactly its addresses that they are a function.
///
/// It takes time by both numbers, times a logarithm of the symbols, and by the bytes of the names.
pub fn names_of(
    alloc: Global,
    symbols: &Symbols,
    funcs: &[Func],
) -> Result<Vec<Items<u8>>, NoMemory>
    requires { All (λ f. f.from ≤ f.to) funcs.now }
    ensures { IfOk result (λ names. names.items ≡ names_of symbols.now funcs.now) }
{
    let firsts = firsts_of(alloc, symbols)?;
    let mut names = Vec::with_capacity(alloc, funcs.len())?;
    for f in funcs {
        names.push(name_in(alloc, &firsts, f)?)?;
    }
    Ok(names)
}
