//! A reader or writer that counts its calls, and those that failed.
ghost use Rattle.std.specs.Prelude.{◌≡◌, length};
ghost use Rattle.std.specs.Io.{ReadsAtMost, WritesAtMost};
ghost use Rattle.std.specs.Io.KnownBytes.{ReadConsumes, WriteAppends, Keeps};
ghost use Rattle.scl_devices.specs.Counts.{read_failures, write_failures, one_more};

use std::io;
use std::io::{Read, Write};
use std::marker::Model;

/// A reader or writer that counts its calls of `read` or `write`, and those that failed (docs/RULES.md, Devices). A count
/// stops at its greatest value. A clause sees the device and both counts.
#[derive(Drop)]
pub struct Counted<D> {
    device: D,
    calls: u64,
    failed: u64,
}

impl<D> Model for Counted<D> {
    ghost use Rattle.scl_devices.specs.Counts.{Counting};

    ghost Value = { Counting D };

    ghost view = { λ c. record { device = c.device; calls = c.calls; failed = c.failed } };
}

impl<D> Counted<D> {
    /// Wraps a reader or writer, with both counts at 0 (docs/RULES.md, Devices).
    pub fn new(device: D) -> Counted<D>
        ensures device { result.device ≡ device }
        ensures no_calls { result.calls ≡ 0 }
        ensures none { result.failed ≡ 0 }
    {
        Counted {
            device,
            calls: 0,
            failed: 0,
        }
    }

    /// The number of calls of `read` or `write` (docs/RULES.md, Devices).
    pub fn calls(&self) -> u64
        ensures { result ≡ self.now.calls }
    {
        self.calls
    }

    /// The number of these calls that failed (docs/RULES.md, Devices).
    pub fn failures(&self) -> u64
        ensures { result ≡ self.now.failed }
    {
        self.failed
    }

    fn count_call(&mut self)
        ensures { self.new ≡ record self.old { calls = one_more self.old.calls } }
    {
        self.calls = self.calls.saturating_add(1);
    }

    fn count_failure(&mut self)
        ensures { self.new ≡ record self.old { failed = one_more self.old.failed } }
    {
        self.failed = self.failed.saturating_add(1);
    }
}

impl<D: Read> Read for Counted<D> {
    ghost remaining = { λ c. D.remaining c.device };

    fn read(&mut self, buf: &mut [u8]) -> io::Result<usize>
        ensures bound { ReadsAtMost result buf.new }
        ensures bytes { ReadConsumes (D.remaining self.old.device) (D.remaining self.new.device) result buf.new }
        ensures calls { self.new.calls ≡ one_more self.old.calls }
        ensures failures { self.new.failed ≡ read_failures result self.old.failed }
    {
        self.count_call();
        let result = self.device.read(buf);
        if result.is_err() {
            self.count_failure();
        }
        result
    }
}

impl<D: Write> Write for Counted<D> {
    ghost contents = { λ c. D.contents c.device };

    fn write(&mut self, buf: &[u8]) -> io::Result<usize>
        ensures bound { WritesAtMost result buf.now }
        ensures bytes { WriteAppends (D.contents self.old.device) (D.contents self.new.device) result buf.now }
        ensures calls { self.new.calls ≡ one_more self.old.calls }
        ensures failures { self.new.failed ≡ write_failures result (length buf.now) self.old.failed }
    {
        self.count_call();
        let result = self.device.write(buf);
        let has_failed = match &result {
            Ok(taken) => *taken == 0 && !buf.is_empty(),
            Err(_) => true,
        };
        if has_failed {
            self.count_failure();
        }
        result
    }

    fn flush(&mut self) -> io::Result<()>
        ensures bytes { Keeps (D.contents self.old.device) (D.contents self.new.device) }
        ensures calls { self.new.calls ≡ self.old.calls }
        ensures failures { self.new.failed ≡ self.old.failed }
    {
        self.device.flush()
    }
}
