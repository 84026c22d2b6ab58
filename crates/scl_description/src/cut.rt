//! Splitting bytes at a mark.
ghost use Rattle.std.specs.Prelude.{◌≡◌, ◌<◌, ◌∷◌, [], MatchOption, IfSome, None, Some, length};
ghost use Rattle.scl_description.specs.Lines.{cut_at, lines_of};

/// The bytes before the first mark, and those after it.
pub fn cut_at(mark: u8, bytes: &[u8]) -> Option<(&[u8], &[u8])>
    ensures { MatchOption result (cut_at mark bytes.now ≡ None) (λ parts. cut_at mark bytes.now ≡ Some (parts.0.now, parts.1.now)) }
{
    for (at, byte) in bytes.iter().enumerate() {
        if *byte == mark {
            return Some((&bytes[..at], &bytes[at + 1..]));
        }
    }
    None
}

/// The first line, and what follows its LF.
pub fn next_line(bytes: &[u8]) -> Option<(&[u8], &[u8])>
    ensures lines { MatchOption result (bytes.now ≡ []) (λ p. lines_of bytes.now ≡ p.0.now ∷ lines_of p.1.now) }
    ensures shorter { IfSome result (λ p. length p.1.now < length bytes.now) }
{
    if bytes.is_empty() {
        return None;
    }
    match cut_at(b'\n', bytes) {
        Some((line, rest)) => Some((line, rest)),
        None => Some((bytes, &[])),
    }
}
