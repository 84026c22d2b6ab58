//! The keywords at the start of lines.
ghost use Rattle.std.specs.Prelude.{◌≡◌};
ghost use Rattle.scl_cl.specs.Sayings.{keyword_text, keywords, keyword_named};

/// The subject of a line.
#[derive(Clone, Copy)]
pub(crate) enum Keyword {
    Compiler,
    Cwd,
    Word,
    File,
    Dir,
    Exists,
    Env,
}

/// The keywords, the most frequent first.
static KEYWORDS: [Keyword; 7] = [
    Keyword::Word,
    Keyword::Compiler,
    Keyword::Cwd,
    Keyword::File,
    Keyword::Dir,
    Keyword::Exists,
    Keyword::Env,
];

fn keywords() -> &'static [Keyword]
    ensures { result.now ≡ keywords }
{
    &KEYWORDS
}

impl Keyword {
    fn text(self) -> &'static str
        ensures { result.now ≡ keyword_text self }
    {
        match self {
            Keyword::Compiler => "compiler",
            Keyword::Cwd => "cwd",
            Keyword::Word => "word",
            Keyword::File => "file",
            Keyword::Dir => "dir",
            Keyword::Exists => "exists",
            Keyword::Env => "env",
        }
    }
}

/// The keyword with this text.
pub(crate) fn keyword_named(text: &[u8]) -> Option<Keyword>
    ensures { result ≡ keyword_named text.now }
{
    keywords()
        .iter()
        .copied()
        .find(|keyword| keyword.text().as_bytes() == text)
}
