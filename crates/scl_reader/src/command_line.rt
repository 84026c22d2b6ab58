//! A command line.

use scl_text::View;

/// A command line: the words after the program, and the directory, environment and files by which they are read. All are
/// bytes. Its ghost view is `given_by`.
#[derive(Clone, Copy)]
pub struct CommandLine<'a> {
    /// The words after the program.
    pub words: &'a [Vec<u8>],
    /// The path of the directory in which they are read.
    pub directory: &'a [u8],
    /// The keys and values of the environment, in order.
    pub environment: &'a [(Vec<u8>, Vec<u8>)],
    /// The files that may be read, and what else is there.
    pub view: &'a View,
}
