//! Layouts as text.

use crate::orders::plan_of;
use emit::emit::{emit, size_of};
use emit::fault::EmitFault;
use image::picture::Image;
use layout::layout::Layout;
use std::alloc::Global;
use std::test::Fail;

/// The layout of a plan at a base, such as `1:2 1 0; 0:0 at 12000`, or why there is none.
pub fn layout_of(
    alloc: Global,
    image: &Image,
    text: &str,
) -> Result<Result<Layout, EmitFault>, Fail> {
    let (plan, base) = text.split_once(" at ").unwrap_or(("", ""));
    let base = u64::from_str_radix(base, 16).unwrap_or(1);
    let plan = plan_of(alloc, image, plan)?;
    let size = match size_of(alloc, image, &plan) {
        Ok(size) => size,
        Err(fault) => return Ok(Err(fault)),
    };
    if base % 4 != 0 || base > 0x0800_0000 || size > 0x0800_0000 - base {
        return Err(Fail::new("no base"));
    }
    Ok(emit(alloc, image, &plan, base))
}

/// The layout of a plan at a base, if there is one.
pub fn made_layout(alloc: Global, image: &Image, text: &str) -> Result<Layout, Fail> {
    match layout_of(alloc, image, text)? {
        Ok(layout) => Ok(layout),
        Err(_) => Err(Fail::new("no layout")),
    }
}
