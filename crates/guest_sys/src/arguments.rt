//! What a call is given.
ghost use Rattle.std.specs.Prelude.{◌≡◌};
ghost use Rattle.guest_sys.specs.Services.{number};

use link_tags::value::Value;

/// The numbers in `x10` to `x14`.
#[derive(Clone, Copy, Debug)]
pub struct Arguments {
    pub a0: u64,
    pub a1: u64,
    pub a2: u64,
    pub a3: u64,
    pub a4: u64,
}

impl Arguments {
    /// Those of the values of `x10` to `x17`.
    pub(crate) fn of(regs: &[Value; 8]) -> Arguments
        ensures { result ≡ record { a0 = number regs.now 10; a1 = number regs.now 11; a2 = number regs.now 12; a3 = number regs.now 13; a4 = number regs.now 14 } }
    {
        Arguments {
            a0: regs[0].number,
            a1: regs[1].number,
            a2: regs[2].number,
            a3: regs[3].number,
            a4: regs[4].number,
        }
    }
}
