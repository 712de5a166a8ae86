/// The addresses from `from` up to, but not with, `to`.
///
/// Whoever keeps a range says that `from <= to`.
#[derive(Clone, Copy, Debug, PartialEq, Eq)]
pub struct Range {
    pub from: u64,
    pub to: u64,
}
