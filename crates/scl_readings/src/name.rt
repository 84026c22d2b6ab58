//! Names in a text.
ghost use Rattle.std.specs.Prelude.{◌≡◌, IfOk, map};
ghost use Rattle.scl_readings.specs.Names.{is_name_byte, names};

use scl_values::Mem;
use std::alloc::Global;

fn is_name_byte(byte: u8) -> bool
    ensures { result ≡ is_name_byte byte }
{
    byte == b'_'
        || (b'0' <= byte && byte <= b'9')
        || (b'A' <= byte && byte <= b'Z')
        || (b'a' <= byte && byte <= b'z')
}

/// The names of a text: its longest parts of letters, digits and `_`.
pub fn names<'a>(alloc: Global, text: &'a [u8]) -> Mem<Vec<&'a [u8]>>
    ensures { IfOk result (λ found. map (λ name. name.now) found.items ≡ names text.now) }
{
    text.split(|byte| !is_name_byte(*byte))
        .filter(|name| !name.is_empty())
        .collect(alloc)
}
