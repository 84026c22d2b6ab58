//! Of a device whose bytes no clause knows, `Counted` passes each answer on.
ghost use Rattle.std.specs.Prelude.{◌≤◌, IfOk};

use scl_cl::Counted;
use std::io;
use std::io::{ErrorKind, Read, Write};

/// A device whose first call fails. The second moves one byte, and each other call all bytes.
#[derive(Drop)]
struct Device {
    kind: ErrorKind,
    calls: u8,
}

impl Device {
    fn new(kind: ErrorKind) -> Device {
        Device { kind, calls: 0 }
    }

    fn answer(&mut self, bytes: usize) -> io::Result<usize>
        ensures { IfOk result (λ count. count ≤ bytes) }
    {
        self.calls = self.calls.saturating_add(1);
        match self.calls {
            1 => Err(io::Error::from(self.kind)),
            2 => Ok(bytes.min(1)),
            _ => Ok(bytes),
        }
    }
}

impl Read for Device {
    fn read(&mut self, buf: &mut [u8]) -> io::Result<usize> {
        self.answer(buf.len())
    }
}

impl Write for Device {
    fn write(&mut self, buf: &[u8]) -> io::Result<usize> {
        self.answer(buf.len())
    }

    fn flush(&mut self) -> io::Result<()> {
        self.answer(0)?;
        Ok(())
    }
}

static KINDS: [ErrorKind; 5] = [
    ErrorKind::Interrupted,
    ErrorKind::WouldBlock,
    ErrorKind::UnexpectedEof,
    ErrorKind::BrokenPipe,
    ErrorKind::Other,
];

#[test]
fn answers_are_passed_on(rt: HostRuntime) {
    for kind in KINDS {
        let mut device = Counted::new(Device::new(kind));
        assert!(rt; matches!(device.read(&mut [0; 4]), Err(error) if error.kind() == kind));
        assert!(rt; matches!(device.read(&mut [0; 4]), Ok(1)));
        assert!(rt; matches!(device.read(&mut [0; 4]), Ok(4)));
        let mut device = Counted::new(Device::new(kind));
        assert!(rt; matches!(device.write(b"abcd"), Err(error) if error.kind() == kind));
        assert!(rt; matches!(device.write(b"abcd"), Ok(1)));
        assert!(rt; matches!(device.write(b"abcd"), Ok(4)));
        let mut device = Counted::new(Device::new(kind));
        assert!(rt; device.flush().is_err());
        assert!(rt; device.flush().is_ok());
    }
}
