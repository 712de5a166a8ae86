//! Rows of cases.

use crate::images::image_of;
use image::picture::Image;
use std::alloc::{AllocError, Global};
use std::test::Fail;

/// A guest, a case of it, and what is wanted, of a row such as `a plan: countdown | 1:2 1 0 = a plan of 1`. What the row shows may be
/// left out.
pub fn split(row: &str) -> (&str, &str, &str) {
    let (guest, rest) = row.split_once(" | ").unwrap_or(("", row));
    let (_, guest) = guest.split_once(": ").unwrap_or(("", guest));
    let (case, wanted) = rest.split_once(" = ").unwrap_or((rest, ""));
    (guest, case, wanted)
}

/// Adds what stands between two pieces of a text, if there is a piece before.
pub fn separate(text: &mut String, mark: &str) -> Result<(), AllocError> {
    if text.is_empty() {
        return Ok(());
    }
    text.push_str(mark)
}

/// Fails where the answer to a row isn't the wanted one, and tells it.
pub fn expect(alloc: Global, row: &str, answer: &str, wanted: &str) -> Result<(), Fail> {
    if answer == wanted {
        return Ok(());
    }
    Err(Fail::new(format!(in alloc; "{answer} is answered: {row}")?))
}

/// What is answered to a case of a guest.
fn answer_of<F>(alloc: Global, guest: &str, case: &str, answer: &F) -> Result<String, Fail>
where
    F: Fn(Global, &Image, &str) -> Result<String, Fail>,
    requires { F.IsAlwaysCallable answer.now }
{
    let image = image_of(alloc, guest)?;
    answer(alloc, &image, case)
}

/// Fails at the first row to which another answer than the wanted one is given.
pub fn check<F>(alloc: Global, rows: &str, answer: F) -> Result<(), Fail>
where
    F: Fn(Global, &Image, &str) -> Result<String, Fail>,
    requires { F.IsAlwaysCallable answer }
{
    for row in rows.lines() {
        let (guest, case, wanted) = split(row);
        let got = answer_of(alloc, guest, case, &answer)?;
        expect(alloc, row, got.as_str(), wanted)?;
    }
    Ok(())
}
