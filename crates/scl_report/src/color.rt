//! Colours of the messages of a built command.
use scl_cl::{ColorMode, Compiler};

fn word_of_mode(mode: ColorMode) -> Option<&'static [u8]> {
    match mode {
        ColorMode::On => None,
        ColorMode::Off => Some(b"-fno-diagnostics-color"),
        // (the built command of such a line has no word for colours)
        ColorMode::Auto => Some(b"-fdiagnostics-color=never"),
    }
}

/// The word before the words of a line by which its command does not force colours: it asks for none, or leaves them to the compiler,
/// which colours for a terminal. A word of the line for colours comes after it, and wins.
pub fn color_word(compiler: Compiler, mode: ColorMode) -> Option<&'static [u8]> {
    match compiler {
        Compiler::Gcc | Compiler::Gxx | Compiler::Clang | Compiler::Clangxx => word_of_mode(mode),
        Compiler::Cl | Compiler::ClangCl | Compiler::Diab | Compiler::Tasking => None,
    }
}
