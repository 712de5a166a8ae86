//! Small drawings, whose pictures are worked out by hand.

use crate::parts::{Block, Drawing, Function, Layout, Place};
use crate::picture::draw;
use oc_base::items::Items;
use std::alloc::Global;
use std::process::Abort;
use std::test::Fail;

const KEYS: &str = "<rect x='20' y='42' width='12' height='12' fill='#bdbdbd'/>
<text x='38' y='52'>never ran</text>
<rect x='170' y='42' width='12' height='12' fill='#fde725'/>
<text x='188' y='52'>1 to 9 times</text>
<rect x='320' y='42' width='12' height='12' fill='#90d743'/>
<text x='338' y='52'>10 to 99</text>
<rect x='470' y='42' width='12' height='12' fill='#35b779'/>
<text x='488' y='52'>100 to 999</text>
<rect x='620' y='42' width='12' height='12' fill='#21918c'/>
<text x='638' y='52'>1,000 to 9,999</text>
<rect x='770' y='42' width='12' height='12' fill='#31688e'/>
<text x='788' y='52'>10,000 to 99,999</text>
<rect x='920' y='42' width='12' height='12' fill='#443983'/>
<text x='938' y='52'>100,000 to 999,999</text>
<rect x='1070' y='42' width='12' height='12' fill='#440154'/>
<text x='1088' y='52'>1,000,000 or more</text>
";

const EMPTY: &str =
    "<svg xmlns='http://www.w3.org/2000/svg' viewBox='0 0 1240 180' width='1240' height='180' font-family='sans-serif' font-size='11'>
<title>Code, and where it moved</title>
<rect width='1240' height='180' fill='#ffffff'/>
<text x='20' y='28' font-size='16'>Code, and where it moved</text>
";

const NO_TEXT: &str = "<text x='20' y='82'>text 0x0..0x0</text>
<rect x='20' y='105' width='1200' height='40' fill='#eeeeee'/>
</svg>
";

// 80 bytes of text, 15 units each, and 64 bytes of a layout. The second place names no function.
const MOVED: &str =
    "<svg xmlns='http://www.w3.org/2000/svg' viewBox='0 0 1240 300' width='1240' height='300' font-family='sans-serif' font-size='11'>
<title>Code, and where it moved</title>
<rect width='1240' height='300' fill='#ffffff'/>
<text x='20' y='28' font-size='16'>Code, and where it moved</text>
";

const MOVED_TEXT: &str = "<text x='20' y='82'>text 0x1000..0x1050</text>
<line x1='620' y1='145' x2='470' y2='230' stroke='#90d743' stroke-opacity='0.5'/>
<rect x='20' y='105' width='1200' height='40' fill='#eeeeee'/>
<g><title>go&#x3c;1&#x3e;, function 7, 0x1000..0x1040</title>
<rect x='20' y='105' width='240' height='40' fill='#bdbdbd'/>
<rect x='260' y='105' width='720' height='40' fill='#90d743'/>
<text x='500' y='100' text-anchor='middle'>go&#x3c;1&#x3e;</text>
</g>
<g><title>x, function 9, 0x1040..0x1050</title>
<rect x='980' y='105' width='240' height='40' fill='#440154'/>
<text x='1100' y='100' text-anchor='middle'>x</text>
</g>
<rect x='20' y='230' width='1200' height='40' fill='#eeeeee'/>
<rect x='20' y='230' width='900' height='40' fill='#90d743'><title>0:1 0x2000..0x2030</title></rect>
<rect x='920' y='230' width='75' height='40' fill='#bdbdbd'><title>5:0 0x2030..0x2034</title></rect>
<text x='20' y='284'>layout 3 0x2000..0x2040</text>
</svg>
";

// The second function has a byte of 65,537: a width of 1, and no room for its name.
const TINY_TEXT: &str = "<text x='20' y='82'>text 0x0..0x10001</text>
<rect x='20' y='105' width='1200' height='40' fill='#eeeeee'/>
<g><title>wide\\x20\\x5c, function 0, 0x0..0x10000</title>
<rect x='20' y='105' width='1199' height='40' fill='#fde725'/>
<text x='619' y='100' text-anchor='middle'>wide\\x20\\x5c</text>
</g>
<g><title>t\\xff, function 1, 0x10000..0x10001</title>
<rect x='1219' y='105' width='1' height='40' fill='#35b779'/>
</g>
</svg>
";

fn check(
    rt: &(impl Abort + AllocGlobal),
    drawing: Drawing,
    head: &str,
    rest: &str,
) -> Result<(), Fail> {
    let alloc = rt.alloc();
    let picture = draw(alloc, &drawing)?;
    let wanted = format!(in alloc; "{head}{KEYS}{rest}")?;
    assert_eq!(rt; picture.as_slice(), wanted.as_bytes(), "{wanted}");
    Ok(())
}

fn block(from: u64, to: u64, count: u64) -> Block {
    Block { from, to, count }
}

fn function(alloc: Global, number: u32, name: &[u8], blocks: &[Block]) -> Result<Function, Fail> {
    Ok(Function {
        number,
        name: Items::from_slice(alloc, name)?,
        blocks: Items::from_slice(alloc, blocks)?,
    })
}

fn place(function: u32, block: usize, from: u64, to: u64) -> Place {
    Place {
        function,
        block,
        from,
        to,
    }
}

fn moved(alloc: Global) -> Result<Drawing, Fail> {
    let go = [block(0x1000, 0x1010, 0), block(0x1010, 0x1040, 12)];
    let mut functions = Items::new(alloc);
    functions.push(function(alloc, 7, b"go<1>", &go)?)?;
    let x = [block(0x1040, 0x1050, 1_000_000)];
    functions.push(function(alloc, 9, b"x", &x)?)?;
    let places = [place(0, 1, 0x2000, 0x2030), place(5, 0, 0x2030, 0x2034)];
    let mut layouts = Items::new(alloc);
    layouts.push(Layout {
        number: 3,
        base: 0x2000,
        to: 0x2040,
        places: Items::from_slice(alloc, &places)?,
    })?;
    Ok(Drawing { functions, layouts })
}

fn tiny(alloc: Global) -> Result<Drawing, Fail> {
    let mut functions = Items::new(alloc);
    let wide = [block(0, 0x10000, 5)];
    functions.push(function(alloc, 0, b"wide \\", &wide)?)?;
    let short = [block(0x10000, 0x10001, 100)];
    functions.push(function(alloc, 1, b"t\xff", &short)?)?;
    Ok(Drawing {
        functions,
        layouts: Items::new(alloc),
    })
}

#[test]
fn an_empty_drawing_has_its_legend(rt: HostRuntime) -> Result<(), Fail> {
    let drawing = Drawing {
        functions: Items::new(rt.alloc()),
        layouts: Items::new(rt.alloc()),
    };
    check(&rt, drawing, EMPTY, NO_TEXT)
}

#[test]
fn a_block_is_joined_to_where_it_moved(rt: HostRuntime) -> Result<(), Fail> {
    check(&rt, moved(rt.alloc())?, MOVED, MOVED_TEXT)
}

#[test]
fn a_narrow_function_has_no_label(rt: HostRuntime) -> Result<(), Fail> {
    check(&rt, tiny(rt.alloc())?, EMPTY, TINY_TEXT)
}
