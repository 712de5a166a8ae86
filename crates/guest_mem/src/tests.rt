ghost use Rattle.std.specs.Prelude.{◌≡◌, IfSome};

use crate::fault::{Access, StoreFault};
use crate::flat::FlatMem;
use crate::paged::PagedMem;
use crate::store::GuestStore;
use link_tags::origins::{Origins, Same};
use link_tags::value::Value;
use oc_base::fault::NoMemory;
use oc_base::range::Range;
use rv_isa::instr::Width;
use std::alloc::Global;
use std::test::Fail;

/// Every link goes back to one address.
struct One;

impl Origins for One {
    ghost origin = { λ _ _. 0x10028 };

    fn origin(&self, _at: u64) -> u64 {
        0x10028
    }
}

const AT: u64 = 0x0ff0_0000;

/// The first 64 bytes from AT may be read and written.
const FIRST: Range = Range {
    from: AT,
    to: AT + 64,
};

fn flat(alloc: Global) -> Result<FlatMem, NoMemory> {
    let mut mem = FlatMem::new(alloc);
    mem.map(FIRST, true, true)?;
    Ok(mem)
}

fn paged(alloc: Global) -> Result<PagedMem, NoMemory> {
    let mut mem = PagedMem::new(alloc)?;
    mem.map(FIRST, true, true)?;
    Ok(mem)
}

#[test]
fn a_link_is_seen_by_its_original_number_and_broken_by_a_byte(rt: HostRuntime) -> Result<(), Fail> {
    let mut mem = paged(rt.alloc())?;
    let link = Value::link(0x12014);
    assert_eq!(rt; mem.store(AT, Width::D, link, &One), Ok(()));
    let loads = [
        (Width::B, Value::plain(40)),
        (Width::H, Value::plain(0x28)),
        (Width::W, Value::plain(0x10028)),
        (Width::D, link),
        (Width::Bu, Value::plain(40)),
        (Width::Hu, Value::plain(0x28)),
        (Width::Wu, Value::plain(0x10028)),
    ];
    for (width, value) in loads {
        assert_eq!(rt; mem.load(AT, width, &One), Ok(value));
    }
    assert_eq!(rt; mem.load(AT, Width::W, &Same), Ok(Value::plain(0x12014)));
    assert!(rt; mem.is_link(AT + 7));
    assert!(rt; !mem.is_link(AT + 8));
    assert_eq!(rt;
        mem.links(rt.alloc())?.as_slice(),
        [(AT, 0x12014)].as_slice()
    );
    assert_eq!(rt; mem.store(AT, Width::B, Value::plain(7), &One), Ok(()));
    assert_eq!(rt; mem.load(AT, Width::D, &One), Ok(Value::plain(0x10007)));
    assert!(rt; mem.links(rt.alloc())?.is_empty());
    Ok(())
}

#[test]
fn narrow_loads_extend_and_narrow_stores_of_links_store_what_is_seen(
    rt: HostRuntime,
) -> Result<(), Fail> {
    let mut mem = flat(rt.alloc())?;
    let all = Value::plain(0x8899_aabb_ccdd_eeff);
    assert_eq!(rt; mem.store(AT, Width::D, all, &One), Ok(()));
    let loads = [
        (AT, Width::B, 0xffff_ffff_ffff_ffff),
        (AT + 7, Width::B, 0xffff_ffff_ffff_ff88),
        (AT + 7, Width::Bu, 0x88),
        (AT + 2, Width::H, 0xffff_ffff_ffff_ccdd),
        (AT + 6, Width::Hu, 0x8899),
        (AT + 4, Width::W, 0xffff_ffff_8899_aabb),
        (AT + 4, Width::Wu, 0x8899_aabb),
        (AT, Width::D, 0x8899_aabb_ccdd_eeff),
    ];
    for (at, width, number) in loads {
        assert_eq!(rt; mem.load(at, width, &One), Ok(Value::plain(number)));
    }
    let link = Value::link(0x12014);
    assert_eq!(rt; mem.store(AT + 8, Width::W, link, &One), Ok(()));
    assert_eq!(rt; mem.store(AT + 6, Width::H, link, &One), Ok(()));
    assert_eq!(rt; mem.store(AT + 5, Width::B, link, &One), Ok(()));
    assert_eq!(rt; mem.load(AT + 8, Width::D, &One), Ok(Value::plain(0x10028)));
    assert_eq!(rt;
        mem.load(AT, Width::D, &One),
        Ok(Value::plain(0x0028_28bb_ccdd_eeff))
    );
    Ok(())
}

#[test]
fn misalignment_is_found_before_a_missing_right(rt: HostRuntime) -> Result<(), Fail> {
    let mut mem = paged(rt.alloc())?;
    let rights = Range {
        from: AT + 60,
        to: AT + 64,
    };
    mem.set_rights(rights, false, true)?;
    let loads = [
        (AT + 56, Width::D, Err(Access::NoAccess)),
        (AT + 57, Width::D, Err(Access::Misaligned)),
        (AT + 58, Width::W, Err(Access::Misaligned)),
        (AT + 60, Width::W, Err(Access::NoAccess)),
        (AT + 56, Width::W, Ok(Value::plain(0))),
        (AT + 64, Width::Bu, Err(Access::NoAccess)),
        (u64::MAX, Width::H, Err(Access::Misaligned)),
        (u64::MAX, Width::B, Err(Access::NoAccess)),
    ];
    for (at, width, answer) in loads {
        assert_eq!(rt; mem.load(at, width, &Same), answer);
    }
    let stores = [
        (AT + 60, Width::W, Ok(())),
        (AT + 62, Width::W, Err(StoreFault::Misaligned)),
        (AT + 64, Width::B, Err(StoreFault::NoAccess)),
        (AT + 65, Width::H, Err(StoreFault::Misaligned)),
    ];
    for (at, width, answer) in stores {
        assert_eq!(rt; mem.store(at, width, Value::plain(1), &Same), answer);
    }
    assert!(rt; mem.may_read(AT, 60));
    assert!(rt; !mem.may_read(AT, 61));
    assert!(rt; mem.may_write(AT, 64));
    assert!(rt; mem.may_write(u64::MAX, 0));
    assert!(rt; !mem.may_write(AT + 1, 64));
    assert!(rt; !mem.may_write(u64::MAX, 2));
    Ok(())
}

#[test]
fn transfers_go_by_what_is_seen_and_make_words_plain(rt: HostRuntime) -> Result<(), Fail> {
    let mut mem = paged(rt.alloc())?;
    assert_eq!(rt; mem.store(AT, Width::D, Value::link(0x12014), &One), Ok(()));
    assert_eq!(rt;
        mem.store(AT + 8, Width::D, Value::link(0x12018), &One),
        Ok(())
    );
    let seen = mem.take_bytes(rt.alloc(), AT + 1, 8, &One)?;
    assert_eq!(rt; seen.as_slice(), [0, 1, 0, 0, 0, 0, 0, 0x28].as_slice());
    assert_eq!(rt; mem.put_bytes(AT + 6, &[5, 6, 7], &One), Ok(()));
    let words = [(AT, 0x0605_0000_0001_0028), (AT + 8, 0x10007)];
    for (at, number) in words {
        assert_eq!(rt; mem.load(at, Width::D, &One), Ok(Value::plain(number)));
    }
    assert_eq!(rt; mem.put_bytes(u64::MAX, &[], &One), Ok(()));
    assert_eq!(rt;
        mem.put_bytes(AT + 63, &[1, 2], &One),
        Err(StoreFault::NoAccess)
    );
    assert_eq!(rt;
        mem.put_bytes(u64::MAX, &[1, 2], &One),
        Err(StoreFault::NoAccess)
    );
    let refused = mem.take_bytes(rt.alloc(), AT + 63, 2, &One);
    assert!(rt; matches!(refused, Err(StoreFault::NoAccess)));
    let none = mem.take_bytes(rt.alloc(), u64::MAX, 0, &One)?;
    assert!(rt; none.is_empty());
    let room = Range {
        from: AT + 16,
        to: AT + 32,
    };
    mem.make_room(room)?;
    assert_eq!(rt; mem.load(AT + 16, Width::D, &One), Ok(Value::plain(0)));
    Ok(())
}

#[test]
fn mapping_makes_bytes_zero_and_plain(rt: HostRuntime) -> Result<(), Fail> {
    let mut mem = paged(rt.alloc())?;
    let link = Value::link(0x12014);
    for at in [AT + 40, AT + 8, AT + 24] {
        assert_eq!(rt; mem.store(at, Width::D, link, &One), Ok(()));
    }
    assert!(rt; mem.is_link(AT + 10));
    mem.set_link(AT + 10, 0x12018);
    let all = mem.links(rt.alloc())?;
    assert_eq!(rt;
        all.as_slice(),
        [(AT + 8, 0x12018), (AT + 24, 0x12014), (AT + 40, 0x12014)].as_slice()
    );
    let first = Range {
        from: AT + 8,
        to: AT + 16,
    };
    let second = Range {
        from: AT + 16,
        to: AT + 32,
    };
    mem.map(first, true, false)?;
    mem.unmap(second)?;
    assert_eq!(rt;
        mem.links(rt.alloc())?.as_slice(),
        [(AT + 40, 0x12014)].as_slice()
    );
    assert_eq!(rt; mem.load(AT + 8, Width::D, &One), Ok(Value::plain(0)));
    assert_eq!(rt;
        mem.store(AT + 8, Width::D, link, &One),
        Err(StoreFault::NoAccess)
    );
    assert_eq!(rt; mem.load(AT + 16, Width::D, &One), Err(Access::NoAccess));
    let empty = Range {
        from: AT + 44,
        to: AT + 44,
    };
    mem.map(empty, false, false)?;
    assert_eq!(rt; mem.load(AT + 40, Width::D, &One), Ok(link));
    Ok(())
}

/// Stores a whole word and loads it back, from the bound alone.
fn stored_and_loaded<M: GuestStore, O: Origins>(
    mem: &mut M,
    at: u64,
    v: Value,
    origins: &O,
) -> Option<Value>
    ensures { IfSome result (λ back. back ≡ v) }
{
    let _number = v.number;
    let Ok(()) = mem.store(at, Width::D, v, origins) else {
        return None;
    };
    let Ok(back) = mem.load(at, Width::D, origins) else {
        return None;
    };
    Some(back)
}

#[test]
fn a_whole_word_comes_back(rt: HostRuntime) -> Result<(), Fail> {
    let link = Value::link(0x12014);
    let mut mem = flat(rt.alloc())?;
    assert_eq!(rt; stored_and_loaded(&mut mem, AT, link, &One), Some(link));
    assert_eq!(rt; stored_and_loaded(&mut mem, AT + 64, link, &One), None);
    let mut mem = paged(rt.alloc())?;
    assert_eq!(rt; stored_and_loaded(&mut mem, AT, link, &One), Some(link));
    assert_eq!(rt; stored_and_loaded(&mut mem, AT + 64, link, &One), None);
    Ok(())
}

/// A memory of which the pages 1 and 2 may be read and written.
fn two_pages(alloc: Global) -> Result<PagedMem, NoMemory> {
    let mut mem = PagedMem::new(alloc)?;
    let pages = Range {
        from: 0x1000,
        to: 0x3000,
    };
    mem.map(pages, true, true)?;
    Ok(mem)
}

#[test]
fn bytes_of_a_page_may_differ_in_rights(rt: HostRuntime) -> Result<(), Fail> {
    let mut mem = two_pages(rt.alloc())?;
    let middle = Range {
        from: 0x1800,
        to: 0x2800,
    };
    mem.set_rights(middle, false, true)?;
    let loads = [
        (0xfff, Err(Access::NoAccess)),
        (0x1000, Ok(Value::plain(0))),
        (0x17ff, Ok(Value::plain(0))),
        (0x1800, Err(Access::NoAccess)),
        (0x27ff, Err(Access::NoAccess)),
        (0x2800, Ok(Value::plain(0))),
        (0x3000, Err(Access::NoAccess)),
    ];
    for (at, answer) in loads {
        assert_eq!(rt; mem.load(at, Width::Bu, &Same), answer);
    }
    Ok(())
}

#[test]
fn bytes_are_put_over_the_end_of_a_page(rt: HostRuntime) -> Result<(), Fail> {
    let mut mem = two_pages(rt.alloc())?;
    let link = Value::link(0x12014);
    for at in [0x1ff8, 0x2000] {
        assert_eq!(rt; mem.store(at, Width::D, link, &One), Ok(()));
    }
    assert_eq!(rt; mem.put_bytes(0x1ffe, &[1, 2, 3], &One), Ok(()));
    let words = [(0x1ff8, 0x0201_0000_0001_0028), (0x2000, 0x10003)];
    for (at, number) in words {
        assert_eq!(rt; mem.load(at, Width::D, &One), Ok(Value::plain(number)));
    }
    let taken = mem.take_bytes(rt.alloc(), 0x1ffd, 5, &One)?;
    assert_eq!(rt; taken.as_slice(), [0, 1, 2, 3, 0].as_slice());
    Ok(())
}

#[test]
fn links_are_found_beside_pages_and_parts_that_are_unmapped(rt: HostRuntime) -> Result<(), Fail> {
    let mut mem = PagedMem::new(rt.alloc())?;
    let most = Range {
        from: 0,
        to: 0x0c00_0000,
    };
    mem.map(most, true, true)?;
    let places = [0, 0x1ff8, 0x2000, 0x3ff8, 0x4000, 0x0bff_fff8];
    for at in places {
        assert_eq!(rt; mem.store(at, Width::D, Value::link(at), &Same), Ok(()));
    }
    let gone = Range {
        from: 0x2000,
        to: 0x3ff8,
    };
    mem.unmap(gone)?;
    let left = [
        (0, 0),
        (0x1ff8, 0x1ff8),
        (0x3ff8, 0x3ff8),
        (0x4000, 0x4000),
        (0x0bff_fff8, 0x0bff_fff8),
    ];
    assert_eq!(rt; mem.links(rt.alloc())?.as_slice(), left.as_slice());
    assert_eq!(rt; mem.load(0x2000, Width::D, &Same), Err(Access::NoAccess));
    mem.unmap(most)?;
    assert!(rt; mem.links(rt.alloc())?.is_empty());
    Ok(())
}
