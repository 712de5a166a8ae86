//! Plans that several threads work out. Rows are as in the tests of `plan_of`.

ghost use Rattle.std.specs.Prelude.{◌≡◌};

use crate::runs::profile_of_run;
use cases::orders::plan_text;
use cases::rows::{check, expect};
use elf_make::make::make_elf;
use elf_read::read::read_elf;
use image::picture::Image;
use placer::place::place;
use placer::placed::{Job, Named, Placed};
use relocs::build::build_image;
use rv_asm::assemble::assemble;
use std::alloc::Global;
use std::marker::Brand;
use std::test::Fail;
use std::thread::Threads;

/// The plan of a job, of the image that `J` names.
fn placed_as<J: Named, R: Threads + Sync>(
    rt: &R,
    alloc: Global,
    image: &Image,
    job: Job,
) -> Result<String, Fail>
    requires { image.now ≡ J.image }
{
    let placed: Placed<J> = place(rt, alloc, image, job)?;
    if placed.job().number != 1 {
        return Err(Fail::new("another job"));
    }
    Ok(plan_text(alloc, placed.plan())?)
}

/// The plan of a first job, with the profile of some transfers.
fn placed<R: Threads + Sync>(
    rt: &R,
    alloc: Global,
    image: &Image,
    case: &str,
) -> Result<String, Fail> {
    let profile = profile_of_run(alloc, case)?;
    placed_as::<Brand, R>(rt, alloc, image, Job { number: 1, profile })
}

const ROWS: &str = "\
countdown | 10000>10010 10018>10014 10018>1001c 10024>10004 = 0:0; 1:0 1 2
countdown | 10024>10004*3 = 1:0 2 1
recursion | 10004>10010 10010>10014*3 10010>10030 10020>10010*3 10030>10024*3 10030>10008 = 0:0; 1:0 1 2
neighbours | 1000c>10000*3 10004>10008*2 = 0:0; 1:0
zero word | 10000>10004 1000c>10000*4 = 0:0
zero word | 1000c>10000*4";

#[test]
fn threads_give_the_same_plans(rt: HostRuntime) -> Result<(), Fail> {
    check(
        rt.alloc(),
        ROWS,
        |alloc, image, case| placed(&rt, alloc, image, case),
    )
}

/// Ten functions, each of a branch, a word and a return: three blocks.
const TEN: &str = "\
.func f0; beq x5,x0,to0; nop; to0: ret; .end; .func f1; beq x5,x0,to1; nop; to1: ret; .end
.func f2; beq x5,x0,to2; nop; to2: ret; .end; .func f3; beq x5,x0,to3; nop; to3: ret; .end
.func f4; beq x5,x0,to4; nop; to4: ret; .end; .func f5; beq x5,x0,to5; nop; to5: ret; .end
.func f6; beq x5,x0,to6; nop; to6: ret; .end; .func f7; beq x5,x0,to7; nop; to7: ret; .end
.func f8; beq x5,x0,to8; nop; to8: ret; .end; .func f9; beq x5,x0,to9; nop; to9: ret; .end
";

/// The branches of the ten functions: those of the even ones are taken.
const BRANCHES: &str = "\
10000>10008*3 1000c>10010*1 10018>10020*10 10024>10028*2 10030>10038*9
1003c>10040*4 10048>10050*8 10054>10058*5 10060>10068*7 1006c>10070*6";

/// The functions by how often they were left, and each with the block first to which its branch went.
const IN_ORDER: &str =
    "2:0 2 1; 4:0 2 1; 6:0 2 1; 8:0 2 1; 9:0 1 2; 7:0 1 2; 5:0 1 2; 0:0 2 1; 3:0 1 2; 1:0 1 2";

fn image_of_ten(alloc: Global) -> Result<Image, Fail> {
    let text = TEN.as_bytes();
    if text.len() > 67_108_864 {
        return Err(Fail::new("too long"));
    }
    let program = assemble(alloc, text)?;
    let file = make_elf(alloc, &program)?;
    let parts = read_elf(alloc, file.as_slice())?;
    Ok(build_image(alloc, &parts, None)?)
}

#[test]
fn more_functions_than_threads_stand_in_order(rt: HostRuntime) -> Result<(), Fail> {
    let alloc = rt.alloc();
    let image = image_of_ten(alloc)?;
    let plan = placed(&rt, alloc, &image, BRANCHES)?;
    expect(alloc, BRANCHES, plan.as_str(), IN_ORDER)
}
