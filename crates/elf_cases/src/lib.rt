//! Tests of executables: whole and mangled files through `elf_read`, `relocs` and `image`.
#![tactic(auto)]

#[cfg(test)]
mod tests;
