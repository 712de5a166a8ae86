ghost use Rattle.std.specs.Prelude.{◌≡◌};
ghost use Rattle.oc_base.specs.Listed.{called, fails_next};

/// The calls of a device in memory.
#[derive(Drop)]
pub struct Calls {
    /// The numbers of the calls that are to fail. The first call has number 1.
    pub fails: Vec<u64>,
    /// How many calls there were.
    pub count: u64,
}

impl Calls {
    /// Counts one more call, and answers whether it is to fail.
    pub fn next_fails(&mut self) -> bool
        ensures fails { result ≡ fails_next self.old }
        ensures calls { self.new ≡ called self.old }
    {
        self.count = self.count.saturating_add(1);
        self.fails.contains(&self.count)
    }
}
