//! Writing a whole text to a counted writer.
ghost use Rattle.scl_devices.specs.Writes.{WriteEnds};

use crate::counted::Counted;
use std::io::Write;

/// A write failed: how much of the text the writer took before.
#[derive(Debug, Clone, Copy, PartialEq, Eq)]
pub struct WriteFault {
    /// The number of bytes that the writer took before the failed write.
    pub written: u64,
}

/// Writes the whole text. If a write fails, the fault says how many bytes the writer took before (docs/RULES.md, Devices).
pub fn write_whole<W: Write>(writer: &mut Counted<W>, text: &[u8]) -> Result<(), WriteFault>
    ensures { WriteEnds (W.contents writer.old.device) (W.contents writer.new.device) writer.old.failed writer.new.failed text.now result }
{
    let mut written = 0;
    while written < text.len() {
        let (_, rest) = text.split_at(written);
        let taken = match writer.write(rest) {
            Ok(taken) if taken > 0 => taken,
            Ok(_) | Err(_) => return Err(WriteFault {
                written: written as u64,
            }),
        };
        written += taken;
    }
    Ok(())
}
