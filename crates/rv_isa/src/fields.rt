//! The operands of an instruction, each a number in the range that its field in a word allows.
ghost use Rattle.std.specs.Prelude.{◌≡◌, ◌<◌, ◌^◌, ◌↔◌, pos, IsSome, IfSome};
ghost use Rattle.rv_isa.specs.Ranges.{IsShift, IsImm20, IsImm12, IsOffB, IsOffJ};

use std::marker::Model;

/// A register, `x0` to `x31`.
#[derive(Clone, Copy, Debug, PartialEq, Eq)]
pub struct Reg {
    // as wide as the immediates beside it in an instruction, which then needs no packing
    number: u32,
}

impl Model for Reg {
    ghost use Rattle.std.specs.Prelude.{ℕ, ◌<◌};

    ghost Value = { ℕ };

    ghost view = { λ r. r.number };

    ghost invariant = { λ r. r.number < 32 };

    ghost inverse = { λ n. record { number = n } };
}

impl Reg {
    /// The register of this number.
    pub fn new(n: u8) -> Option<Reg>
        ensures some { IsSome result ↔ (n < 32) }
        ensures value { IfSome result (λ r. r ≡ n) }
    {
        if n < 32 {
            Some(Reg {
                number: u32::from(n),
            })
        } else {
            None
        }
    }

    /// Its number.
    pub fn get(self) -> u8
        ensures value { result ≡ self }
        ensures range { self < 32 }
    {
        self.number as u8
    }
}

/// How many places a shift moves its operand.
#[derive(Clone, Copy, Debug, PartialEq, Eq)]
pub struct Shift {
    // as wide as a register's number, for the same reason
    amount: u32,
}

impl Model for Shift {
    ghost use Rattle.std.specs.Prelude.{ℕ, ◌<◌};

    ghost Value = { ℕ };

    ghost view = { λ s. s.amount };

    ghost invariant = { λ s. s.amount < 64 };

    ghost inverse = { λ n. record { amount = n } };
}

impl Shift {
    /// A shift by `v` places.
    pub fn new(v: i32) -> Option<Shift>
        ensures some { IsSome result ↔ IsShift v }
        ensures value { IfSome result (λ s. pos s ≡ v) }
    {
        if (0..=63).contains(&v) {
            Some(Shift { amount: v as u32 })
        } else {
            None
        }
    }

    /// The number of places.
    pub fn get(self) -> i32
        ensures value { result ≡ pos self }
        ensures range { self < 64 }
    {
        self.amount as i32
    }
}

/// The upper 20 bits of a 32-bit number, as LUI and AUIPC have them.
#[derive(Clone, Copy, Debug, PartialEq, Eq)]
pub struct Imm20 {
    value: u32,
}

impl Model for Imm20 {
    ghost use Rattle.std.specs.Prelude.{ℕ, ◌<◌, ◌^◌};

    ghost Value = { ℕ };

    ghost view = { λ i. i.value };

    ghost invariant = { λ i. i.value < 2 ^ 20 };

    ghost inverse = { λ n. record { value = n } };
}

impl Imm20 {
    /// The immediate `v`, which stands for `v << 12`.
    pub fn new(v: i32) -> Option<Imm20>
        ensures some { IsSome result ↔ IsImm20 v }
        ensures value { IfSome result (λ i. pos i ≡ v) }
    {
        if (0..=1048575).contains(&v) {
            Some(Imm20 { value: v as u32 })
        } else {
            None
        }
    }

    /// The 20 bits as a number.
    pub fn get(self) -> i32
        ensures value { result ≡ pos self }
        ensures range { self < 2 ^ 20 }
    {
        self.value as i32
    }
}

/// A signed immediate of 12 bits, as those of I and S instructions.
#[derive(Clone, Copy, Debug, PartialEq, Eq)]
pub struct Imm12 {
    value: i32,
}

impl Model for Imm12 {
    ghost use Rattle.std.specs.Prelude.{ℤ};
    ghost use Rattle.rv_isa.specs.Ranges.{IsImm12};

    ghost Value = { ℤ };

    ghost view = { λ i. i.value };

    ghost invariant = { λ i. IsImm12 i.value };

    ghost inverse = { λ z. record { value = z } };
}

impl Imm12 {
    /// The immediate `v`.
    pub fn new(v: i32) -> Option<Imm12>
        ensures some { IsSome result ↔ IsImm12 v }
        ensures value { IfSome result (λ i. i ≡ v) }
    {
        if (-2048..=2047).contains(&v) {
            Some(Imm12 { value: v })
        } else {
            None
        }
    }

    /// Its value.
    pub fn get(self) -> i32
        ensures value { result ≡ self }
        ensures range { IsImm12 self }
    {
        self.value
    }
}

/// The distance of a branch in bytes, an even number.
#[derive(Clone, Copy, Debug, PartialEq, Eq)]
pub struct OffB {
    value: i32,
}

impl Model for OffB {
    ghost use Rattle.std.specs.Prelude.{ℤ};
    ghost use Rattle.rv_isa.specs.Ranges.{IsOffB};

    ghost Value = { ℤ };

    ghost view = { λ o. o.value };

    ghost invariant = { λ o. IsOffB o.value };

    ghost inverse = { λ z. record { value = z } };
}

impl OffB {
    /// A distance of `v` bytes.
    pub fn new(v: i32) -> Option<OffB>
        ensures some { IsSome result ↔ IsOffB v }
        ensures value { IfSome result (λ o. o ≡ v) }
    {
        if (-4096..=4094).contains(&v) && v % 2 == 0 {
            Some(OffB { value: v })
        } else {
            None
        }
    }

    /// The bytes.
    pub fn get(self) -> i32
        ensures value { result ≡ self }
        ensures range { IsOffB self }
    {
        self.value
    }
}

/// The distance of a jump in bytes, an even number.
#[derive(Clone, Copy, Debug, PartialEq, Eq)]
pub struct OffJ {
    value: i32,
}

impl Model for OffJ {
    ghost use Rattle.std.specs.Prelude.{ℤ};
    ghost use Rattle.rv_isa.specs.Ranges.{IsOffJ};

    ghost Value = { ℤ };

    ghost view = { λ o. o.value };

    ghost invariant = { λ o. IsOffJ o.value };

    ghost inverse = { λ z. record { value = z } };
}

impl OffJ {
    /// A distance of `v` bytes.
    pub fn new(v: i32) -> Option<OffJ>
        ensures some { IsSome result ↔ IsOffJ v }
        ensures value { IfSome result (λ o. o ≡ v) }
    {
        if (-1048576..=1048574).contains(&v) && v % 2 == 0 {
            Some(OffJ { value: v })
        } else {
            None
        }
    }

    /// The bytes.
    pub fn get(self) -> i32
        ensures value { result ≡ self }
        ensures range { IsOffJ self }
    {
        self.value
    }
}

#[cfg(test)]
mod tests {
    use super::*;

    /// The least and the greatest number of each operand, their neighbours outside, and odd distances.
    #[test]
    fn operands_have_their_ranges(rt: HostRuntime) {
        for (n, fits) in [(0, true), (31, true), (32, false), (255, false)] {
            assert_eq!(rt;
                Reg::new(n).map(Reg::get),
                if fits { Some(n) } else { None }
            );
        }
        for (v, fits) in [(-1, false), (0, true), (63, true), (64, false)] {
            assert_eq!(rt;
                Shift::new(v).map(Shift::get),
                if fits { Some(v) } else { None }
            );
        }
        for (v, fits) in [(-1, false), (0, true), (1048575, true), (1048576, false)] {
            assert_eq!(rt;
                Imm20::new(v).map(Imm20::get),
                if fits { Some(v) } else { None }
            );
        }
        for (v, fits) in [
            (-2049, false),
            (-2048, true),
            (-1, true),
            (2047, true),
            (2048, false),
        ] {
            assert_eq!(rt;
                Imm12::new(v).map(Imm12::get),
                if fits { Some(v) } else { None }
            );
        }
        for (v, fits) in [
            (-4098, false),
            (-4096, true),
            (3, false),
            (4094, true),
            (4096, false),
        ] {
            assert_eq!(rt;
                OffB::new(v).map(OffB::get),
                if fits { Some(v) } else { None }
            );
        }
        for (v, fits) in [
            (-1048578, false),
            (-1048576, true),
            (-1, false),
            (1048574, true),
            (1048576, false),
        ] {
            assert_eq!(rt;
                OffJ::new(v).map(OffJ::get),
                if fits { Some(v) } else { None }
            );
        }
    }
}
