//! The operators of a shell, as `&&`.
ghost use Rattle.std.specs.Prelude.{◌≡◌};
ghost use Rattle.scl_shell.specs.Operators.{begins_operator, is_operator, operator_at};

use crate::split::Mode;

fn begins_operator(byte: u8) -> bool
    ensures { result ≡ begins_operator byte }
{
    matches!(byte, b'&' | b'|' | b';' | b'<' | b'>' | b'(' | b')')
}

/// Whether a byte begins an operator where it stands.
fn is_operator(mode: Mode, byte: u8) -> bool
    ensures { result ≡ is_operator mode byte }
{
    match mode {
        Mode::Plain => begins_operator(byte),
        Mode::Escaped | Mode::Single | Mode::Double | Mode::DoubleEscaped => false,
    }
}

/// The index of the first byte of a shell's text that begins an operator: `&`, `|`, `;`, `<`, `>`, `(` or `)`, outside quotes and
/// not after a backslash. A text with an operator is no single command line.
pub fn operator_at(text: &[u8]) -> Option<usize>
    ensures { result ≡ operator_at text.now }
{
    let mut mode = Mode::Plain;
    for (at, byte) in text.iter().enumerate() {
        if is_operator(mode, *byte) {
            return Some(at);
        }
        mode = mode.read(*byte).0;
    }
    None
}
