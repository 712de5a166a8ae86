//! What a run by threads delivers.

use oc_base::items::Items;
use oc_base::text::Text;
use report::writing::Delivery;
use sched_log::event::Event;

/// A text for a file: the log as a script.
#[derive(Debug, Drop)]
pub struct RecordFile {
    /// The file's name.
    pub name: Text,
    pub text: Items<u8>,
}

/// What a run by threads delivers.
#[derive(Debug, Drop)]
pub struct Life {
    pub delivery: Delivery,
    /// What was done, with each attempt as `Replace`.
    pub log: Items<Event>,
    /// How many real steps the workers counted, all together.
    pub shares: u64,
    /// The record, where the words ask for one.
    pub file: Option<RecordFile>,
}
