//! Names that are written alike wherever a compiler writes them.
ghost use Rattle.std.specs.Prelude.{◌≡◌};
ghost use Rattle.std.specs.List.{list_all};
ghost use Rattle.scl_values.specs.Words.{words_of};
ghost use Rattle.scl_shared_key.specs.Usuals.{are_usual, is_usual, is_usual_byte};

/// Whether a byte is written as it is in line markers, rules of make and plans.
fn is_usual_byte(byte: u8) -> bool
    ensures { result ≡ is_usual_byte byte }
{
    matches!(byte, b'a'..=b'z' | b'A'..=b'Z' | b'0'..=b'9' | b'/' | b'_' | b'.' | b'-' | b'+' | b'@' | b'~')
}

/// Whether all bytes of a text are.
pub(crate) fn has_usual_bytes(text: &[u8]) -> bool
    ensures { result ≡ list_all is_usual_byte text.now }
{
    for byte in text {
        if !is_usual_byte(*byte) {
            return false;
        }
    }
    true
}

/// Whether a directory is absolute and has such bytes.
fn is_usual(dir: &[u8]) -> bool
    ensures { result ≡ is_usual dir.now }
{
    dir.starts_with(b"/") && has_usual_bytes(dir)
}

fn all_usual(dirs: &[Vec<u8>]) -> bool
    ensures { result ≡ list_all is_usual (words_of dirs.now) }
{
    for dir in dirs {
        if !is_usual(dir) {
            return false;
        }
    }
    true
}

/// Whether there is a directory, and all are usual.
pub(crate) fn are_usual(dirs: &[Vec<u8>]) -> bool
    ensures { result ≡ are_usual (words_of dirs.now) }
{
    !dirs.is_empty() && all_usual(dirs)
}
