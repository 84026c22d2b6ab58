//! Rows of definitions, worked by hand and proved by evaluation: each function has the rows of a topic as its clauses, and does
//! nothing. The calls whose results these definitions are need no rows of their own, since their clauses say that the two are
//! equal.
#![tactic(auto)]

ghost use Rattle.scl_examples.specs.Decoded.{TextsAreReadByTheirMarks, HighBytesAreRead, LocalTextsAreRead};
ghost use Rattle.scl_examples.specs.Languages.{ExtensionsHaveLanguages, LanguagesHaveTexts, OtherTextsAreRead, LanguagesNeedPreprocessing};
ghost use Rattle.scl_examples.specs.Options.{ValuesArePrinted, ValuesAreMoved, WordsAfterDashesAreRaw, WithoutDashesOptionsGoOn, LastFlagsAreCut, LongestFlagsAreFound, LongestOfTablesAreFound, NothingIsFoundWithoutRows, DelimitersStandAfterFlags, RisingRowsMakeATable};
ghost use Rattle.scl_examples.specs.Paths.{PathsAreJoined, ExtensionsAreChanged, FileNamesAreChanged, FileNamesAndExtensionsAreFound, ComponentsAreCompared};
ghost use Rattle.scl_examples.specs.Texts.{GnuTextsHaveSeparators, MsvcTextsHaveSeparators, DiabTextsHaveSeparators, DiabTextsHaveNoEmptyWord, DiabTextsHaveNoQuote, GnuTextsHaveQuotesAndEscapes, MsvcTextsHaveQuotes};
ghost use Rattle.scl_examples.specs.Words.{ArchitecturesAreFound, WordsAreQuoted};

/// Rows of options: what they print, what words are cut into, and which row owns a word.
pub fn of_options()
    ensures values_are_printed { ValuesArePrinted }
    ensures values_are_moved { ValuesAreMoved }
    ensures words_after_dashes_are_raw { WordsAfterDashesAreRaw }
    ensures without_dashes_options_go_on { WithoutDashesOptionsGoOn }
    ensures last_flags_are_cut { LastFlagsAreCut }
    ensures longest_flags_are_found { LongestFlagsAreFound }
    ensures longest_of_tables_are_found { LongestOfTablesAreFound }
    ensures nothing_is_found_without_rows { NothingIsFoundWithoutRows }
    ensures delimiters_stand_after_flags { DelimitersStandAfterFlags }
    ensures rising_rows_make_a_table { RisingRowsMakeATable }
{}

/// Rows of paths: joined, changed, taken apart and compared.
#[tactic(auto, unfolding(scl_files::specs::Paths::places))]
pub fn of_paths()
    ensures paths_are_joined { PathsAreJoined }
    ensures extensions_are_changed { ExtensionsAreChanged }
    ensures file_names_are_changed { FileNamesAreChanged }
    ensures file_names_and_extensions_are_found { FileNamesAndExtensionsAreFound }
    ensures components_are_compared { ComponentsAreCompared }
{}

/// Rows of response files: the words of texts of each kind.
#[tactic(auto, unfolding(scl_files::specs::GnuText::gnu_arguments, scl_files::specs::MsvcText::msvc_arguments, scl_files::specs::DiabText::diab_arguments))]
pub fn of_texts()
    ensures gnu_texts_have_separators { GnuTextsHaveSeparators }
    ensures msvc_texts_have_separators { MsvcTextsHaveSeparators }
    ensures diab_texts_have_separators { DiabTextsHaveSeparators }
    ensures diab_texts_have_no_empty_word { DiabTextsHaveNoEmptyWord }
    ensures diab_texts_have_no_quote { DiabTextsHaveNoQuote }
    ensures gnu_texts_have_quotes_and_escapes { GnuTextsHaveQuotesAndEscapes }
    ensures msvc_texts_have_quotes { MsvcTextsHaveQuotes }
{}

/// Rows of bytes: the texts that they are read as.
#[tactic(auto, unfolding(scl_files::specs::Decoding::decoded))]
pub fn of_bytes()
    ensures texts_are_read_by_their_marks { TextsAreReadByTheirMarks }
    ensures high_bytes_are_read { HighBytesAreRead }
    ensures local_texts_are_read { LocalTextsAreRead }
{}

/// Rows of languages: by extension, by the texts of `-x`, and whether they are preprocessed.
#[tactic(auto, unfolding(scl_files::specs::Paths::places))]
pub fn of_languages()
    ensures extensions_have_languages { ExtensionsHaveLanguages }
    ensures languages_have_texts { LanguagesHaveTexts }
    ensures other_texts_are_read { OtherTextsAreRead }
    ensures languages_need_preprocessing { LanguagesNeedPreprocessing }
{}

/// Rows of lists of words: the architectures among them, and what messages show of them.
pub fn of_words()
    ensures architectures_are_found { ArchitecturesAreFound }
    ensures words_are_quoted { WordsAreQuoted }
{}
