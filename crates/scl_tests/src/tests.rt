//! What no clause says and no program shows.
mod calls;
mod compilers;
mod devices;
mod rounds;
mod texts;

use scl_cl::Mem;
use std::alloc::Global;

/// The words of a command line that compiles.
fn words(alloc: Global) -> Mem<Vec<Vec<u8>>> {
    let mut words = Vec::new(alloc);
    words.push(Vec::from_slice(alloc, b"-c")?)?;
    words.push(Vec::from_slice(alloc, b"a.c")?)?;
    Ok(words)
}
