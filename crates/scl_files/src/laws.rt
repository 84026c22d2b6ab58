//! What follows from the definitions of paths, texts and expansions. Each law is a clause of a function with an empty body.
ghost use Rattle.std.specs.Prelude.{◌≡◌, Some, IsTrue, ◌↔◌, IfSome};
ghost use Rattle.scl_files.specs.Paths.{join, with_extension, with_file_name, same_path, components, is_file_name, is_plain_extension, extended_name, stem_of_name, file_name, extension};
ghost use Rattle.scl_files.specs.GnuText.{TextsHavePieces, TextsHaveNoOtherPieces, GivesNoEmptyArgument, IsReadBack, gnu_quoted, gnu_escaped};
ghost use Rattle.scl_files.specs.MsvcText.{OnlyQuotesGiveEmptyArguments, QuotedWordsAreReadBack};
ghost use Rattle.scl_files.specs.DiabText.{PlainWordsAreReadBack};
ghost use Rattle.scl_files.specs.Decoding.{Utf8FilesAreReadBack, Utf16FilesAreReadBack};
ghost use Rattle.scl_files.specs.Wanted.{WantedFilesDecide};
ghost use Rattle.scl_files.specs.ExpansionLaws.{WordsAreExpandedOneByOne, WordsOfMsvcFilesStand, AbsentFilesLeaveTheirWords, UnreadableFilesLeaveTheirWords, OpenFilesAreAbsentInside, PlainWordsStand, EachFileIsOpenOnce};

/// Laws of paths (docs/RULES.md, Paths):
///
/// - `same_components`: `same_path` says whether the components are equal; so it is an equivalence (`reflexive`, `symmetric`,
///   `transitive`);
/// - `joined_name`, `replaced_name`: a plain name that is joined to a directory, or that replaces a file name, is the new
///   file name;
/// - `extended_name`, `new_extension`, `same_stem`: a plain extension replaces the file name's own and is then the extension;
///   the stem stays.
pub fn of_paths(_a: &[u8], _b: &[u8], _c: &[u8])
    ensures same_components { IsTrue (same_path _a.now _b.now) ↔ (components _a.now ≡ components _b.now) }
    ensures reflexive { IsTrue (same_path _a.now _a.now) }
    ensures symmetric { IsTrue (same_path _a.now _b.now) → IsTrue (same_path _b.now _a.now) }
    ensures transitive { IsTrue (same_path _a.now _b.now) → IsTrue (same_path _b.now _c.now) → IsTrue (same_path _a.now _c.now) }
    ensures joined_name { IsTrue (is_file_name _b.now) → file_name (join _a.now _b.now) ≡ Some _b.now }
    ensures replaced_name { IsTrue (is_file_name _b.now) → file_name (with_file_name _a.now _b.now) ≡ Some _b.now }
    ensures extended_name { IfSome (file_name _a.now) (λ name. IsTrue (is_plain_extension _b.now)
        → file_name (with_extension _a.now _b.now) ≡ Some (extended_name name _b.now)) }
    ensures new_extension { IfSome (file_name _a.now) (λ _. IsTrue (is_plain_extension _b.now)
        → extension (with_extension _a.now _b.now) ≡ Some _b.now) }
    ensures same_stem { IfSome (file_name _a.now) (λ name. IsTrue (is_plain_extension _b.now)
        → stem_of_name (extended_name name _b.now) ≡ stem_of_name name) }
{}

/// Laws of the texts of response files (docs/RULES.md, GNU text, MSVC text, Diab text, and Decoding):
///
/// - `gnu_pieces`, `gnu_no_other_pieces`: every text has exactly one list of pieces;
/// - `gnu_arguments_are_nonempty`: no GNU text gives an empty argument;
/// - `gnu_quoted_words_are_read_back`, `gnu_escaped_words_are_read_back`: a text of words in single quotes, or with
///   backslashes, separated by spaces, gives these words;
/// - `only_quotes_give_empty_msvc_arguments`: an MSVC text gives an empty argument exactly where a stretch has only toggling
///   quotes, as in `""`;
/// - `msvc_quoted_words_are_read_back`: a text of words that are quoted as MSVC's tools do, separated by spaces, gives these
///   words;
/// - `diab_words_are_read_back`: a text of words without white space and quotes, separated by spaces, gives these words;
/// - `utf8_files_are_read_back`, `utf16_files_are_read_back`: a file in UTF-8 or UTF-16, after its mark, gives its
///   characters.
#[tactic(auto, using(crate::proofs::GnuLaws::gnu_laws, crate::proofs::MsvcLaws::msvc_laws, crate::proofs::DiabLaws::plain_words_are_read_back, crate::proofs::DecodeLaws::file_laws))]
pub fn of_texts()
    ensures gnu_pieces { TextsHavePieces }
    ensures gnu_no_other_pieces { TextsHaveNoOtherPieces }
    ensures gnu_arguments_are_nonempty { GivesNoEmptyArgument }
    ensures gnu_quoted_words_are_read_back { IsReadBack gnu_quoted }
    ensures gnu_escaped_words_are_read_back { IsReadBack gnu_escaped }
    ensures only_quotes_give_empty_msvc_arguments { OnlyQuotesGiveEmptyArguments }
    ensures msvc_quoted_words_are_read_back { QuotedWordsAreReadBack }
    ensures diab_words_are_read_back { PlainWordsAreReadBack }
    ensures utf8_files_are_read_back { Utf8FilesAreReadBack }
    ensures utf16_files_are_read_back { Utf16FilesAreReadBack }
{}

/// Laws of words with response files expanded (docs/RULES.md, Expansion):
///
/// - `words_are_expanded_one_by_one`: a word gives itself, or the expansion of the words of its file while that file is open;
///   then the other words follow;
/// - `words_of_msvc_files_stand`: the words of an MSVC file are not expanded;
/// - `absent_files_leave_their_words`, `unreadable_files_leave_their_words`: a word stays if the file that it names is absent
///   or its text can't be read;
/// - `open_files_are_absent_inside`: while a file is open, its words find no file at its path;
/// - `plain_words_stand`: if no word names a file, the words are unchanged;
/// - `each_file_is_open_once`: on a chain of files, each named by a word while the ones before it are open, no file is open
///   twice.
pub fn of_expansion()
    ensures words_are_expanded_one_by_one { WordsAreExpandedOneByOne }
    ensures words_of_msvc_files_stand { WordsOfMsvcFilesStand }
    ensures absent_files_leave_their_words { AbsentFilesLeaveTheirWords }
    ensures unreadable_files_leave_their_words { UnreadableFilesLeaveTheirWords }
    ensures open_files_are_absent_inside { OpenFilesAreAbsentInside }
    ensures plain_words_stand { PlainWordsStand }
    ensures each_file_is_open_once { EachFileIsOpenOnce }
{}

/// Laws of the files that words ask for (docs/RULES.md, Expansion):
///
/// - `wanted_files_decide`: let the disk have the files of a view, with the same bytes, and none of the other wanted files.
///   Then the expansion on the disk is the expansion in the view. So a caller can look for each wanted file on the disk, add
///   those that exist to the view, and repeat until none is found. Its words are then those of the whole disk.
pub fn of_wanted_files()
    ensures wanted_files_decide { WantedFilesDecide }
{}
