//! What each byte of a command line of Windows adds to its words.
ghost use Rattle.std.specs.Prelude.{◌≡◌, ◌==◌, ◌+◌, ◌<◌, ◌≤◌, ◌^◌, ◌∷◌, ℕ, List, [], false};
ghost use Rattle.scl_windows_words.specs.Parts.{Item, bare, is_gap, slashes, stands, taken, text_parts};
ghost use Rattle.scl_windows_words.specs.Reading.{left_in, marked, stepped, stood, to_come};

/// The bytes that separate words outside quotes.
#[derive(Clone, Copy)]
pub enum Gaps {
    /// Space and tab, as the C runtime has it.
    Blanks,
    /// Also LF, CR and NUL, as LLVM has it.
    WhiteSpace,
}

impl Gaps {
    /// Whether the byte is one of them.
    pub fn has(self, byte: u8) -> bool
        ensures { result ≡ is_gap self byte }
    {
        match self {
            Gaps::Blanks => matches!(byte, b' ' | b'\t'),
            Gaps::WhiteSpace => matches!(byte, b' ' | b'\t' | b'\n' | b'\r' | 0),
        }
    }
}

/// What a byte or the end adds after the backslashes.
#[derive(Clone, Copy)]
pub enum Mark {
    Nothing,
    /// A gap between words.
    Separates,
    /// A quote that opens, so a word has begun.
    Opens,
    /// The byte of a word.
    Stands(u8),
    /// A quote right after one that closes.
    Doubles,
    /// The end, inside quotes.
    StaysOpen,
}

/// What a byte or the end adds: first backslashes, then what the mark says.
#[derive(Clone, Copy)]
pub struct Step {
    pub backslashes: usize,
    pub mark: Mark,
}

/// The context of an item.
#[derive(Clone, Copy)]
pub(crate) enum Place {
    Outside,
    Inside,
    /// Right after a quote that closes.
    Closing,
}

/// The context of the next item, and the backslashes before it.
#[derive(Clone, Copy)]
pub struct Reader {
    gaps: Gaps,
    place: Place,
    backslashes: usize,
}

impl Reader {
    /// The reader of a text, before its first byte.
    pub fn new(gaps: Gaps) -> Reader
        ensures left { (text : List ℕ) → left_in result text ≡ text_parts gaps text }
        ensures none { result.backslashes ≡ 0 }
    {
        Reader {
            gaps,
            place: Place::Outside,
            backslashes: 0,
        }
    }

    /// Reads bytes that are themselves.
    fn take(&mut self)
        ensures come { (bytes : List ℕ) (is : List Item) → stands bytes ∷ to_come self.new is ≡ to_come self.old (taken bytes ∷ is) }
        ensures kept { self.new.backslashes ≡ self.old.backslashes }
    {
        self.place = match self.place {
            Place::Outside | Place::Closing => Place::Outside,
            Place::Inside => Place::Inside,
        };
    }

    /// Reads backslashes that are themselves.
    fn slashes(&mut self, count: usize)
        ensures come { (is : List Item) → stood count (to_come self.new is) ≡ to_come self.old (slashes count is) }
        ensures kept { self.new.backslashes ≡ self.old.backslashes }
    {
        if count == 0 {
            return;
        }
        self.take();
    }

    /// Reads a quote that may open or close.
    fn quote(&mut self) -> Mark
        ensures come { (is : List Item) → marked result (to_come self.new is) ≡ to_come self.old (bare 34 ∷ is) }
        ensures kept { self.new.backslashes ≡ self.old.backslashes }
    {
        match self.place {
            Place::Outside => {
                self.place = Place::Inside;
                Mark::Opens
            }
            Place::Inside => {
                self.place = Place::Closing;
                Mark::Nothing
            }
            Place::Closing => {
                self.place = Place::Inside;
                Mark::Doubles
            }
        }
    }

    /// Reads a byte that is no quote.
    fn other(&mut self, byte: u8) -> Mark
        requires { (byte == 34) ≡ false }
        ensures come { (is : List Item) → marked result (to_come self.new is) ≡ to_come self.old (bare byte ∷ is) }
        ensures kept { self.new.backslashes ≡ self.old.backslashes }
    {
        match self.place {
            Place::Inside => Mark::Stands(byte),
            Place::Outside | Place::Closing => {
                self.place = Place::Outside;
                if self.gaps.has(byte) {
                    Mark::Separates
                } else {
                    Mark::Stands(byte)
                }
            }
        }
    }

    /// Reads a quote after backslashes.
    fn quote_behind(&mut self, count: usize) -> Step
        requires { self.old.backslashes ≡ 0 }
        ensures left { (rest : List ℕ) → stepped result (left_in self.new rest) ≡ left_in (record self.old { backslashes = count }) (34 ∷ rest) }
        ensures none { self.new.backslashes ≡ 0 }
    {
        let backslashes = count / 2;
        self.slashes(backslashes);
        if count % 2 == 0 {
            let mark = self.quote();
            return Step { backslashes, mark };
        }
        self.take();
        Step {
            backslashes,
            mark: Mark::Stands(b'"'),
        }
    }

    /// Reads a byte, and says what it adds. Backslashes are added by the first byte after them.
    pub fn read(&mut self, byte: u8) -> Step
        requires { self.old.backslashes + 1 < 2 ^ 64 }
        ensures left { (rest : List ℕ) → stepped result (left_in self.new rest) ≡ left_in self.old (byte ∷ rest) }
        ensures count { self.new.backslashes ≤ self.old.backslashes + 1 }
    {
        if byte == b'\\' {
            self.backslashes += 1;
            return Step {
                backslashes: 0,
                mark: Mark::Nothing,
            };
        }
        let count = self.backslashes;
        self.backslashes = 0;
        if byte == b'"' {
            return self.quote_behind(count);
        }
        self.slashes(count);
        let mark = self.other(byte);
        Step {
            backslashes: count,
            mark,
        }
    }

    /// Reads the end, and says what it adds.
    pub fn finish(self) -> Step
        ensures { stepped result [] ≡ left_in self [] }
    {
        let mut reader = self;
        let backslashes = reader.backslashes;
        reader.slashes(backslashes);
        let mark = match reader.place {
            Place::Outside | Place::Closing => Mark::Nothing,
            Place::Inside => Mark::StaysOpen,
        };
        Step { backslashes, mark }
    }
}
