//! Apple's clang, by the text of its version.
ghost use Rattle.std.specs.Prelude.{◌≡◌};
ghost use Rattle.std.specs.Option.{option_copied};
ghost use Rattle.scl_reader.specs.Apple.{holds_apple, is_apple};

/// Whether a text holds the word `Apple`.
fn holds_apple(text: &[u8]) -> bool
    ensures { result ≡ holds_apple text.now }
{
    let mut left = text;
    while let Some((_, behind)) = left.split_first() {
        if left.starts_with(b"Apple") {
            return true;
        }
        left = behind;
    }
    false
}

/// Whether the text of Clang's version, if it is known, says that it is Apple's clang: it holds the word `Apple`, as
/// `Apple clang version 15.0.0 (clang-1500.3.9.4)` does (docs/RULES.md, Compilers).
pub fn is_apple(version: Option<&str>) -> bool
    ensures { result ≡ is_apple (option_copied version.entry) }
{
    match version {
        Some(text) => holds_apple(text.as_bytes()),
        None => false,
    }
}
