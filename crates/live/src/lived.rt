//! What a call that runs a program by threads answers.

use oc_base::items::Items;
use report::answer::Answer;
use sched_log::event::Event;

/// What `live` answers.
#[derive(Debug, Drop)]
pub struct Lived {
    pub answer: Answer,
    /// The log of the run, with each attempt as `Replace`. Where nothing was run, or the call ran out of memory, it is empty.
    pub log: Items<Event>,
    /// How many real steps the workers counted, all together.
    pub shares: u64,
}
