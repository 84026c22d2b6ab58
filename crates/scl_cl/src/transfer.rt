//! Reading to the end.
ghost use Rattle.std.specs.Prelude.{◌<◌, ◌≤◌, ◌+◌, ◌^◌, length};
ghost use Rattle.scl_cl.specs.Transfers.{ReadEnds};
ghost use Rattle.scl_cl.specs.Batches.{ReadsMore};

use scl_args::Counted;
use std::alloc::{AllocError, Global};
use std::io::Read;

/// The most reads of a run.
pub(crate) const READS: u64 = 1 << 40;

/// The number of bytes that a read requests.
const BLOCK: usize = 1 << 13;

/// Why not all was read.
#[derive(Drop)]
pub(crate) enum ReadError {
    /// A memory allocation failed.
    Memory,
    /// The reader failed, or did not reach its end.
    Device,
}

impl From<AllocError> for ReadError {
    ghost use Rattle.std.specs.Prelude.{◌≡◌};
    ghost use Rattle.scl_cl.specs.declared.transfer.ReadError.TheVariants.{Memory};

    ghost from_gives = { λ _ e. e ≡ Memory };

    fn from(_: AllocError) -> ReadError {
        ReadError::Memory
    }
}

/// Reads to the end, block by block.
fn read_blocks<R: Read>(
    alloc: Global,
    reader: &mut Counted<R>,
    block: &mut [u8],
) -> Result<Vec<u8>, ReadError>
    requires { 0 < length block.old }
    ensures ends { ReadEnds (R.remaining reader.old.device) (R.remaining reader.new.device) reader.old reader.new result }
    ensures reads { reader.new.calls ≤ reader.old.calls + 2 ^ 40 }
{
    let mut bytes = Vec::new(alloc);
    for _turn in 0..READS {
        let taken = match reader.read(block) {
            Ok(taken) => taken,
            Err(_) => return Err(ReadError::Device),
        };
        if taken == 0 {
            return Ok(bytes);
        }
        bytes.extend_from_slice(&block[..taken])?;
    }
    Err(ReadError::Device)
}

/// Reads to the end.
pub(crate) fn read_all<R: Read>(
    alloc: Global,
    reader: &mut Counted<R>,
) -> Result<Vec<u8>, ReadError>
    ensures ends { ReadEnds (R.remaining reader.old.device) (R.remaining reader.new.device) reader.old reader.new result }
    ensures reads { reader.new.calls ≤ reader.old.calls + 2 ^ 40 }
{
    let mut block = vec![in alloc; 0u8; BLOCK]?;
    read_blocks(alloc, reader, &mut block)
}

/// Reads once and appends what was read; says whether there was anything.
fn read_more<R: Read>(
    reader: &mut Counted<R>,
    block: &mut [u8],
    bytes: &mut Vec<u8>,
) -> Result<bool, ReadError>
    requires { 0 < length block.old }
    ensures { ReadsMore (R.remaining reader.old.device) (R.remaining reader.new.device) bytes.old.items bytes.new.items reader.old.failed reader.new.failed result }
{
    let taken = match reader.read(block) {
        Ok(taken) => taken,
        Err(_) => return Err(ReadError::Device),
    };
    if taken == 0 {
        return Ok(false);
    }
    bytes.extend_from_slice(&block[..taken])?;
    Ok(true)
}

/// Reads a block and appends it; says whether there was anything.
pub(crate) fn read_block<R: Read>(
    alloc: Global,
    reader: &mut Counted<R>,
    bytes: &mut Vec<u8>,
) -> Result<bool, ReadError>
    ensures { ReadsMore (R.remaining reader.old.device) (R.remaining reader.new.device) bytes.old.items bytes.new.items reader.old.failed reader.new.failed result }
{
    let mut block = vec![in alloc; 0u8; BLOCK]?;
    read_more(reader, &mut block, bytes)
}
