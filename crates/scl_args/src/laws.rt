//! What follows from the definitions that the other contracts cite. Each law is a clause of a function with an empty body.
ghost use Rattle.std.specs.Prelude.{◌≡◌, [], ◌∷◌};
ghost use Rattle.scl_args.specs.Laws.{FlagsRise, OwnerIsLongestFit, FitsAreUnique, LongestFitOwns, LastFitOwns, OwnerIsOfAllRows, LastTableWins, LastMemberWins, OrderCountsOnTies, CountsDigits, LooksAddUp, CutsByCases, PrintsWhatWasCut, PrintsOneOrTwo, TextsAreWords, StaysOnItsSide};
ghost use Rattle.scl_args.specs.CutAgain.{PrintsAgain, OptionsCame, RawAndUnknownWordsHaveNoOwner, EmptyValuesAreSeen, JudgedAreClear, NextFlagSuffices, PrintedWordsHaveTheirOwner};

use scl_tables::{SearchableArgInfo, Tables};
use scl_values::ArgumentValue;

/// Laws of tables and of the rows that own words (docs/RULES.md, Owners, and Looks):
///
/// - `flags_rise`: the flags of a table rise strictly by bytes;
/// - `owner_is_longest_fit`: the owner of a word in a table fits it, no fitting row has a longer flag, and there is no owner
///   only if no row fits;
/// - `fits_are_unique`: two rows of one table that fit a word and have equally long flags are the same row;
/// - `longest_fit_owns`: a row that fits a word, such that no fitting row is longer, is the word's owner;
/// - `last_fit_owns`: the last row that fits a word is its owner;
/// - `owner_is_of_all_rows`: the owner of a word in several tables is its owner in one list of all their rows;
/// - `last_table_wins`: of several tables the longest owner wins; of equally long ones the last table's;
/// - `counts_digits`: `bits n` binary digits, which the limit on looks uses, are enough for n, and for n above 0 no fewer
///   are;
/// - `looks_add_up`: the limit on the looks of a search in several tables is the sum of the tables' limits.
pub fn of_tables<K>()
    ensures flags_rise { FlagsRise K }
    ensures owner_is_longest_fit { OwnerIsLongestFit K }
    ensures fits_are_unique { FitsAreUnique K }
    ensures longest_fit_owns { LongestFitOwns K }
    ensures last_fit_owns { LastFitOwns K }
    ensures owner_is_of_all_rows { OwnerIsOfAllRows K }
    ensures last_table_wins { LastTableWins K }
    ensures counts_digits { CountsDigits }
    ensures looks_add_up { LooksAddUp K }
{}

/// Laws of `Tables` (docs/RULES.md, Owners):
///
/// - `pair_is_tables_of_two`: `Tables` of two has the tables of the pair;
/// - `last_member_wins`: with one more member at the end, `Tables` finds the longer of the row found before and the member's;
///   of equally long ones the member's;
/// - `order_counts_on_ties`: tables in another order find rows with the same flag, and the same row if no two rows have the
///   same flag.
pub fn of_members<K, T: ArgumentValue, S: SearchableArgInfo<T>>()
    ensures pair_is_tables_of_two { (first second : S) → ⟦<Tables<S> as SearchableArgInfo<T>>⟧.tables (first ∷ second ∷ []) ≡ ⟦<(S, S) as SearchableArgInfo<T>>⟧.tables (first, second) }
    ensures last_member_wins { LastMemberWins K S }
    ensures order_counts_on_ties { OrderCountsOnTies K }
{}

/// Laws of cutting and printing (docs/RULES.md, Cutting, Printing, and Texts):
///
/// - `cuts_by_cases`: words are cut by the cases of their first words, and in no other way;
/// - `prints_what_was_cut`: options print the words that they were cut from, except a delimiter with nothing after it;
/// - `prints_one_or_two`: an option prints one word or two;
/// - `texts_are_words`: the texts of an option are its words, if each path's text is its word;
/// - `stays_on_its_side`: moving an option to a side a second time, to either side, changes nothing.
pub fn of_options<K, T>()
    ensures cuts_by_cases { CutsByCases K }
    ensures prints_what_was_cut { PrintsWhatWasCut K }
    ensures prints_one_or_two { PrintsOneOrTwo K }
    ensures texts_are_words { TextsAreWords K T }
    ensures stays_on_its_side { StaysOnItsSide K }
{}

/// Laws of words that options print and that are cut again (docs/RULES.md, Cutting again):
///
/// - `options_came`: each option that words are cut into came from a word of its row, with its value, or from a word that no
///   row owns. But the mark `--`, if it ends the options, and the words after it are raw;
/// - `raw_and_unknown_words_have_no_owner`: an unknown word has no owner, nor has a raw one before the mark `--` that ends
///   the options;
/// - `empty_values_are_seen`: an option that words are cut into is seen to have an empty value of an either row exactly if it
///   has one. The value's disposition shows it, or the owner of the flag;
/// - `judged_options_are_clear`: if empty values of either rows are refused and no option of a line is, no option has such a
///   value;
/// - `next_flag_suffices`: in a table, no flag extends a given flag if the next greater one does not;
/// - `printed_words_have_their_owner`: let tables pass two checks for the kinds of these options, and let no option have an
///   empty value of an either row. Then the first word that an option prints is owned by its row. That word is the flag if
///   the value is printed apart, else the flag with the value;
/// - `prints_again`: by such tables, such options (without raw ones, if `--` ends options), printed, are cut into the same
///   options again, whatever words follow.
pub fn of_words_cut_again<K, V>()
    ensures options_came { OptionsCame K }
    ensures raw_and_unknown_words_have_no_owner { RawAndUnknownWordsHaveNoOwner K }
    ensures empty_values_are_seen { EmptyValuesAreSeen K }
    ensures judged_options_are_clear { JudgedAreClear K V }
    ensures next_flag_suffices { NextFlagSuffices K }
    ensures printed_words_have_their_owner { PrintedWordsHaveTheirOwner K }
    ensures prints_again { PrintsAgain K }
{}
