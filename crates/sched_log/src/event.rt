use plans::plan::Plan;

/// What a script asks of a run. Harts are numbered 0 to 63.
#[derive(Debug, Drop)]
pub enum Event {
    /// Hart `h` makes `n` steps.
    Steps { h: u32, n: u64 },
    /// Hart `h` steps until `n` real steps are done.
    Real { h: u32, n: u64 },
    /// `n` turns; in each the harts that are there at its start make one real step, in the order of their numbers.
    Till { n: u64 },
    /// The last transfers of all harts are counted.
    Snap,
    /// The functions move that the last snapshot's plan has.
    Replace,
    /// The functions of a plan move.
    Given(Plan),
    /// The layouts that nothing refers to are given up.
    Retire,
}
