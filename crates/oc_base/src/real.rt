//! The trusted edge: streams and files of the system. They tell neither contents nor names,
//! and count each error that the system reports.

ghost use Rattle.std.specs.Prelude.{◌≡◌, ℕ, List, Option, Some, None};

use crate::fault::{Failed, TakeFault};
use crate::files::Files;
use crate::sink::Sink;
use crate::source::{Source, read_all};
use std::alloc::Global;
use std::io::{Read, Write};
use std::{fs, rt};

/// A reader of the standard library as a source.
#[derive(Drop)]
pub struct StdSource<R> {
    inner: R,
    faults: u64,
}

impl<R: Read> StdSource<R> {
    /// A source that no error has met yet.
    pub fn new(inner: R) -> Self
        ensures { ⟦<StdSource<R> as Source>⟧.faults result ≡ Some 0 }
    {
        StdSource { inner, faults: 0 }
    }
}

impl<R: Read> Source for StdSource<R> {
    ghost left = { λ _. None };

    ghost reads = { λ _. 0 };

    ghost faults = { λ s. Some s.faults };

    fn read(&mut self, into: &mut [u8]) -> Result<usize, Failed> {
        let Ok(count) = self.inner.read(into) else {
            self.faults = self.faults.saturating_add(1);
            return Err(Failed);
        };
        Ok(count)
    }
}

/// A writer of the standard library as a sink.
#[derive(Drop)]
pub struct StdSink<W> {
    inner: W,
    faults: u64,
}

impl<W: Write> StdSink<W> {
    /// A sink that no error has met yet.
    pub fn new(inner: W) -> Self
        ensures { ⟦<StdSink<W> as Sink>⟧.faults result ≡ Some 0 }
    {
        StdSink { inner, faults: 0 }
    }
}

impl<W: Write> Sink for StdSink<W> {
    ghost holds = { λ _. None };

    ghost faults = { λ s. Some s.faults };

    fn write(&mut self, piece: &[u8]) -> Result<usize, Failed> {
        match self.inner.write(piece) {
            Ok(count) if count > 0 => Ok(count),
            _ => {
                self.faults = self.faults.saturating_add(1);
                Err(Failed)
            }
        }
    }
}

/// The files of the system, by their paths.
#[derive(Drop)]
pub struct RealFiles<R> {
    runtime: R,
    take_faults: u64,
    put_faults: u64,
}

impl<R: rt::Files> RealFiles<R> {
    /// Files that no error has met yet.
    pub fn new(runtime: R) -> Self
        ensures takes { ⟦<RealFiles<R> as Files>⟧.take_faults result ≡ Some 0 }
        ensures puts { ⟦<RealFiles<R> as Files>⟧.put_faults result ≡ Some 0 }
    {
        RealFiles {
            runtime,
            take_faults: 0,
            put_faults: 0,
        }
    }
}

impl<R: rt::Files> Files for RealFiles<R> {
    ghost disk = { λ _. None };

    ghost asked = { λ _. None };

    ghost take_faults = { λ s. Some s.take_faults };

    ghost put_faults = { λ s. Some s.put_faults };

    fn take(&mut self, alloc: Global, name: &str, limit: usize) -> Result<Vec<u8>, TakeFault> {
        let Ok(file) = fs::open(&self.runtime, name) else {
            self.take_faults = self.take_faults.saturating_add(1);
            return Err(TakeFault::Failed);
        };
        let mut source = StdSource::new(file);
        match read_all(alloc, &mut source, limit) {
            Ok(bytes) => Ok(bytes),
            Err(TakeFault::Failed) => {
                self.take_faults = self.take_faults.saturating_add(1);
                Err(TakeFault::Failed)
            }
            Err(fault) => Err(fault),
        }
    }

    fn put(&mut self, name: &str, bytes: &[u8]) -> Result<(), Failed> {
        let Ok(()) = fs::write(&self.runtime, name, bytes) else {
            self.put_faults = self.put_faults.saturating_add(1);
            return Err(Failed);
        };
        Ok(())
    }
}
