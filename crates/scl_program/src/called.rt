//! The command that is called.
use scl_help::PARTS;

/// The command that is called, and a blank; nothing where none is.
pub fn called(arguments: &[Vec<u8>]) -> (&'static str, &'static str) {
    for part in PARTS {
        if let Some(first) = arguments.first()
            && first.as_slice() == part.name.as_bytes()
        {
            return (part.name, " ");
        }
    }
    ("", "")
}
