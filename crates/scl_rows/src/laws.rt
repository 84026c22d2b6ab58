//! What follows from the definitions of rows. Each law is a clause of a function with an empty body.
ghost use Rattle.scl_rows.specs.GnuRows.{GnuRowsShareWords, GnuRowsTell};
ghost use Rattle.scl_rows.specs.MsvcRows.{MsvcRowsShareWords, MsvcRowsTell};
ghost use Rattle.scl_rows.specs.SmallRows.{SmallRowsShareWords, SmallRowsTell};

/// Laws of the rows of command lines of Gcc and Clang (docs/RULES.md, Rows of options):
///
/// - `rows_tell`: if a row is refused, so is the command line, with the refusal of the first such row; if the line has a
///   record, the rows make its lists;
/// - `rows_share_words`: the words that rows were cut from, in order, are those of the command line, each once and unchanged,
///   and then those of the inner one.
pub fn of_gnu_rows()
    ensures rows_tell { GnuRowsTell }
    ensures rows_share_words { GnuRowsShareWords }
{}

/// The same laws for the rows of command lines of cl and clang-cl, which have two inner ones.
pub fn of_msvc_rows()
    ensures rows_tell { MsvcRowsTell }
    ensures rows_share_words { MsvcRowsShareWords }
{}

/// The same laws for the rows of command lines of Diab and TaskingVX, which have no inner ones.
pub fn of_small_rows<K>()
    ensures rows_tell { SmallRowsTell K }
    ensures rows_share_words { SmallRowsShareWords K }
{}
