//! A reader and a writer over slices: each call moves a limited number of bytes, and after a set number of calls each call
//! fails.
ghost use Rattle.std.specs.Prelude.{◌≡◌, ◌-◌, ◌↔◌, ◌++◌, [], length, take, drop, Some, IsErr, IsOk, IfOk, IfErr, OnErr};
ghost use Rattle.std.specs.Io.{ReadsAtMost, WritesAtMost};
ghost use Rattle.std.specs.Io.KnownBytes.{ReadConsumes, WriteAppends, Keeps};
ghost use Rattle.std.specs.IoError.{error_kind};
ghost use Rattle.scl_devices.specs.Failing.{Fails, given, after_read, taken, after_write};

use std::io;
use std::io::{ErrorKind, Read, Write};
use std::marker::Model;

/// A reader over a slice, without allocation: a call gives at most `most` bytes, and fails when no calls are left
/// (docs/RULES.md, Devices). A clause sees the bytes and the calls that are left, and `most`.
#[derive(Drop)]
pub struct FailingReader<'a> {
    bytes: &'a [u8],
    most: usize,
    calls: u64,
}

impl<'a> Model for FailingReader<'a> {
    ghost use Rattle.scl_devices.specs.Failing.{Giving};

    ghost Value = { Giving };

    ghost view = { λ r. record { bytes = r.bytes.now; most = r.most; calls = r.calls } };
}

impl<'a> FailingReader<'a> {
    /// Reads these bytes, at most `most` in a call. After `calls` calls each call fails; if `most` is 0, each call fails
    /// (docs/RULES.md, Devices).
    pub fn new(bytes: &'a [u8], most: usize, calls: u64) -> FailingReader<'a>
        ensures { result ≡ record { bytes = bytes.now; most = most; calls = calls } }
    {
        FailingReader { bytes, most, calls }
    }
}

impl Read for FailingReader<'_> {
    ghost remaining = { λ r. Some r.bytes };

    fn read(&mut self, buf: &mut [u8]) -> io::Result<usize>
        ensures bound { ReadsAtMost result buf.new }
        ensures bytes { ReadConsumes (Some self.old.bytes) (Some self.new.bytes) result buf.new }
        ensures fails { IsErr result ↔ Fails self.old }
        ensures count { IfOk result (λ n. n ≡ given self.old (length buf.old)) }
        ensures copied { IfOk result (λ n. buf.new ≡ take n self.old.bytes ++ drop n buf.old) }
        ensures rest { IfOk result (λ n. self.new ≡ after_read self.old n) }
        ensures err { OnErr result ((self.new ≡ self.old) × (buf.new ≡ buf.old)) }
        ensures kind { IfErr result (λ e. error_kind e ≡ ErrorKind.BrokenPipe) }
    {
        if self.calls == 0 || self.most == 0 {
            return Err(io::Error::from(ErrorKind::BrokenPipe));
        }
        self.calls -= 1;
        let count = self.most.min(self.bytes.len().min(buf.len()));
        let (given, rest) = self.bytes.split_at(count);
        buf[..count].copy_from_slice(given);
        self.bytes = rest;
        Ok(count)
    }
}

/// A writer into a slice, without allocation: a call takes at most `most` bytes, and fails when no calls are left
/// (docs/RULES.md, Devices). A clause sees the bytes taken, the rest of the slice, the calls that are left, and `most`.
#[derive(Drop)]
pub struct FailingWriter<'a> {
    slice: &'a mut [u8],
    written: usize,
    most: usize,
    calls: u64,
}

impl<'a> Model for FailingWriter<'a> {
    ghost use Rattle.std.specs.Prelude.{◌≤◌, length, take, drop};
    ghost use Rattle.scl_devices.specs.Failing.{Taking};

    ghost Value = { Taking };

    ghost view = { λ w. record { bytes = take w.written w.slice.now; rest = drop w.written w.slice.now; most = w.most; calls = w.calls } };

    ghost invariant = { λ w. w.written ≤ length w.slice.now };
}

impl<'a> FailingWriter<'a> {
    /// Writes to the front of the slice, at most `most` bytes in a call and as many as fit. After `calls` calls each call
    /// fails (docs/RULES.md, Devices).
    pub fn new(slice: &'a mut [u8], most: usize, calls: u64) -> FailingWriter<'a>
        ensures { result ≡ record { bytes = []; rest = slice.old; most = most; calls = calls } }
    {
        FailingWriter {
            slice,
            written: 0,
            most,
            calls,
        }
    }

    /// The bytes taken so far, in order (docs/RULES.md, Devices).
    pub fn taken(&self) -> &[u8]
        ensures { result.now ≡ self.now.bytes }
    {
        let (taken, _) = self.slice.split_at(self.written);
        taken
    }
}

impl Write for FailingWriter<'_> {
    ghost contents = { λ w. Some w.bytes };

    fn write(&mut self, buf: &[u8]) -> io::Result<usize>
        ensures bound { WritesAtMost result buf.now }
        ensures bytes { WriteAppends (Some self.old.bytes) (Some self.new.bytes) result buf.now }
        ensures fails { IsErr result ↔ (self.old.calls ≡ 0) }
        ensures count { IfOk result (λ n. n ≡ taken self.old (length buf.now)) }
        ensures rest { IfOk result (λ n. self.new ≡ after_write self.old buf.now n) }
        ensures err { OnErr result (self.new ≡ self.old) }
        ensures kind { IfErr result (λ e. error_kind e ≡ ErrorKind.BrokenPipe) }
    {
        if self.calls == 0 {
            return Err(io::Error::from(ErrorKind::BrokenPipe));
        }
        self.calls -= 1;
        let count = self
            .most
            .min(buf.len().min(self.slice.len() - self.written));
        let (given, _) = buf.split_at(count);
        let end = self.written + count;
        self.slice[self.written..end].copy_from_slice(given);
        self.written = end;
        Ok(count)
    }

    fn flush(&mut self) -> io::Result<()>
        ensures ok { IsOk result }
        ensures unchanged { self.new ≡ self.old }
        ensures bytes { Keeps (Some self.old.bytes) (Some self.new.bytes) }
    {
        Ok(())
    }
}
