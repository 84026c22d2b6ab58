//! Tests that words pass.
ghost use Rattle.std.specs.Prelude.{◌≡◌, drop, take};
ghost use Rattle.scl_catalogue.specs.Found.{behind_equals, compared, holds, one_fits, passes};
ghost use Rattle.scl_catalogue.specs.Lookup.{first_front, front_by, front_of};
ghost use Rattle.scl_catalogue.specs.Views.{patterns_of, text_of};

/// How a word is compared with a pattern's text.
#[derive(Clone, Copy, Debug, PartialEq, Eq)]
pub enum How {
    /// It is the text.
    Is,
    /// It begins with the text.
    Begins,
    /// It ends with the text.
    Ends,
    /// It holds the text.
    Holds,
}

/// How a word is compared with the text of a pattern, and the bytes of that text.
#[derive(Clone, Copy, Debug)]
pub struct Cut {
    /// How a word is compared.
    pub how: How,
    /// How many bytes the text has.
    pub length: usize,
}

/// Patterns. Their texts stand in one vector: most of what a catalogue holds are patterns, and a vector for each took a third of
/// the time in which a catalogue is read.
#[derive(Debug, Drop)]
pub struct Patterns {
    /// The texts, one behind the other.
    pub texts: Vec<u8>,
    /// How each is compared, and its length.
    pub cuts: Vec<Cut>,
}

/// The words that one of the first patterns fits, and none of the others.
#[derive(Debug, Drop)]
pub struct Text {
    /// One of these fits.
    pub any: Patterns,
    /// None of these does.
    pub but: Patterns,
}

/// Whether the word has the text in it; the empty word has none.
pub fn holds(word: &[u8], text: &[u8]) -> bool
    ensures { result ≡ holds word.now text.now }
{
    let mut left = word;
    while let Some((_, behind)) = left.split_first() {
        if left.starts_with(text) {
            return true;
        }
        left = behind;
    }
    false
}

/// What stands after the first `=`.
pub fn behind_equals(word: &[u8]) -> &[u8]
    ensures { result.now ≡ behind_equals word.now }
{
    for (at, byte) in word.iter().enumerate() {
        if *byte == b'=' {
            return &word[at + 1..];
        }
    }
    &[]
}

impl How {
    /// Whether a pattern of this text fits the word.
    fn fits(self, text: &[u8], word: &[u8]) -> bool
        ensures { result ≡ compared self text.now word.now }
    {
        match self {
            How::Is => text == word,
            How::Begins => word.starts_with(text),
            How::Ends => word.ends_with(text),
            How::Holds => holds(word, text),
        }
    }

    /// How many bytes of a word stand before its value, where a pattern of this text fits it.
    fn front(self, text: &[u8]) -> usize
        ensures { result ≡ front_by self text.now }
    {
        match self {
            How::Begins => text.len(),
            How::Is | How::Ends | How::Holds => 0,
        }
    }
}

/// The first bytes, this many, and those behind them.
pub(crate) fn cut_off(bytes: &[u8], length: usize) -> (&[u8], &[u8])
    ensures first { result.0.now ≡ take length bytes.now }
    ensures others { result.1.now ≡ drop length bytes.now }
{
    (
        bytes.get(..length).unwrap_or(bytes),
        bytes.get(length..).unwrap_or(&[]),
    )
}

impl Patterns {
    fn one_fits(&self, word: &[u8]) -> bool
        ensures { result ≡ one_fits (patterns_of self.now) word.now }
    {
        let mut left = self.texts.as_slice();
        for cut in &self.cuts {
            let (text, others) = cut_off(left, cut.length);
            if cut.how.fits(text, word) {
                return true;
            }
            left = others;
        }
        false
    }

    /// How many bytes of a word stand before its value, by the first pattern that fits it.
    fn front_of(&self, word: &[u8]) -> Option<usize>
        ensures { result ≡ first_front (patterns_of self.now) word.now }
    {
        let mut left = self.texts.as_slice();
        for cut in &self.cuts {
            let (text, others) = cut_off(left, cut.length);
            if cut.how.fits(text, word) {
                return Some(cut.how.front(text));
            }
            left = others;
        }
        None
    }
}

impl Text {
    /// Whether the word passes.
    #[tactic(auto, unfolding(crate::specs::Found::passes))]
    pub(crate) fn passes(&self, word: &[u8]) -> bool
        ensures { result ≡ passes (text_of self.now) word.now }
    {
        self.any.one_fits(word) && !self.but.one_fits(word)
    }

    /// How many bytes of a word that passes stand before its value: those of a pattern that fits what begins so, and else none.
    pub(crate) fn front_of(&self, word: &[u8]) -> Option<usize>
        ensures { result ≡ front_of (text_of self.now) word.now }
    {
        if self.but.one_fits(word) {
            None
        } else {
            self.any.front_of(word)
        }
    }
}
