//! The devices in memory where they serve and where they fail, and each device of the system once.

use crate::fault::{Failed, TakeFault};
use crate::files::Files;
use crate::items::Items;
use crate::memory::{MemFiles, MemSink, MemSource, NullSink};
use crate::real::{RealFiles, StdSink, StdSource};
use crate::sink::{Sink, write_all};
use crate::source::{Source, read_all};
use crate::text::Text;
use std::test::Fail;

#[test]
fn a_source_is_read_to_its_end_within_the_limit(rt: HostRuntime) -> Result<(), Fail> {
    let alloc = rt.alloc();
    // length, limit, number of the failing read (0: none), and whether the bytes are given
    let rows = [
        (0, 0, 0, Ok(())),
        (3, 3, 0, Ok(())),
        (4, 3, 0, Err(TakeFault::TooLong)),
        (10000, 10000, 0, Ok(())),
        (10001, 10000, 0, Err(TakeFault::TooLong)),
        (3, 3, 1, Err(TakeFault::Failed)),
        (3, 3, 2, Err(TakeFault::Failed)),
        (10000, 10000, 3, Err(TakeFault::Failed)),
    ];
    for (len, limit, failing, want) in rows {
        let bytes = vec![in alloc; 7u8; len]?;
        let mut source = MemSource::new(bytes, vec![in alloc; failing]?);
        match read_all(alloc, &mut source, limit) {
            Ok(all) => {
                assert_eq!(rt; Ok(()), want);
                assert_eq!(rt; all.len(), len);
            }
            Err(fault) => assert_eq!(rt; Err(fault), want),
        }
    }
    Ok(())
}

#[test]
fn a_sink_holds_what_it_took_before_a_fault(rt: HostRuntime) -> Result<(), Fail> {
    let alloc = rt.alloc();
    let mut sink = MemSink::new(b"a".to_vec(alloc)?, vec![in alloc; 2]?);
    assert_eq!(rt; write_all(&mut sink, b"bc"), Ok(()));
    assert_eq!(rt; write_all(&mut sink, b"de"), Err(Failed));
    assert_eq!(rt; write_all(&mut sink, b""), Ok(()));
    assert_eq!(rt; sink.write(b"f"), Ok(1));
    assert_eq!(rt; sink.held(), b"abcf".as_slice());
    assert_eq!(rt; write_all(&mut NullSink, b"any bytes"), Ok(()));
    Ok(())
}

#[test]
fn files_are_taken_and_put_by_name(rt: HostRuntime) -> Result<(), Fail> {
    let alloc = rt.alloc();
    let mut list = Vec::new(alloc);
    list.push((String::from_str(alloc, "a")?, b"one".to_vec(alloc)?))?;
    let mut files = MemFiles::new(list, vec![in alloc; 4]?);
    let one = files.take(alloc, "a", 3);
    assert_eq!(rt; one.is_ok(), true);
    assert_eq!(rt; files.take(alloc, "a", 2).err(), Some(TakeFault::TooLong));
    assert_eq!(rt; files.put("b", b"two"), Ok(()));
    assert_eq!(rt; files.put("a", b""), Err(Failed));
    assert_eq!(rt; files.put("a", b"more"), Ok(()));
    assert_eq!(rt; files.take(alloc, "c", 9).err(), Some(TakeFault::Failed));
    assert_eq!(rt; files.file("a"), Some(b"more".as_slice()));
    assert_eq!(rt; files.file("b"), Some(b"two".as_slice()));
    assert_eq!(rt; files.file("c"), None);
    Ok(())
}

#[test]
fn lists_and_texts_give_what_they_are_made_of(rt: HostRuntime) -> Result<(), Fail> {
    let alloc = rt.alloc();
    let mut list = Items::from_slice(alloc, b"ab")?;
    list.push(b'c')?;
    list.extend_from_slice(b"de")?;
    assert_eq!(rt; list.len(), 5);
    assert_eq!(rt; list.as_slice(), b"abcde".as_slice());
    assert_eq!(rt; list.into_vec().as_slice(), b"abcde".as_slice());
    assert_eq!(rt; Text::copy_of(alloc, "name")?.as_str(), "name");
    Ok(())
}

#[test]
fn a_reader_of_the_system_is_a_source(rt: HostRuntime) -> Result<(), Fail> {
    let alloc = rt.alloc();
    let bytes = vec![in alloc; 5u8; 9000]?;
    let mut source = StdSource::new(bytes.as_slice());
    let all = read_all(alloc, &mut source, 9000);
    assert_eq!(rt; all.ok(), Some(vec![in alloc; 5u8; 9000]?));
    let mut buffer = [0u8; 4];
    assert_eq!(rt; source.read(&mut buffer), Ok(0));
    Ok(())
}

#[test]
fn a_writer_of_the_system_is_a_sink(rt: HostRuntime) -> Result<(), Fail> {
    let alloc = rt.alloc();
    let mut held = Vec::new(alloc);
    let mut sink = StdSink::new(&mut held);
    assert_eq!(rt; write_all(&mut sink, b"some bytes"), Ok(()));
    assert_eq!(rt; held.as_slice(), b"some bytes".as_slice());
    Ok(())
}

#[test]
fn files_of_the_system_are_put_and_taken(rt: HostRuntime) -> Result<(), Fail> {
    let alloc = rt.alloc();
    let name = "/tmp/marangdeck-oc-base-test";
    let mut files = RealFiles::new(&rt);
    assert_eq!(rt; files.put(name, b"bytes of a file"), Ok(()));
    assert_eq!(rt;
        files.take(alloc, name, 15).ok(),
        Some(b"bytes of a file".to_vec(alloc)?)
    );
    assert_eq!(rt; files.take(alloc, name, 14).err(), Some(TakeFault::TooLong));
    std::fs::remove_file(&rt, name)?;
    assert_eq!(rt; files.take(alloc, name, 15).err(), Some(TakeFault::Failed));
    assert_eq!(rt; files.put("/nowhere/at/all", b""), Err(Failed));
    Ok(())
}
