//! Laws of the definitions of descriptions, each a clause of a function that does nothing.
ghost use Rattle.std.specs.Prelude.{◌≡◌, true};
ghost use Rattle.scl_values.specs.Tables.{all_rows};
ghost use Rattle.scl_catalogue.specs.contracts.case.CompilerPartialEq.TheImpl as compilers;
ghost use Rattle.scl_catalogue.specs.declared.case.Compiler.{Compiler};
ghost use Rattle.scl_catalogue_text.specs.contracts.mistake.MistakePartialEq.TheImpl as mistakes;
ghost use Rattle.scl_catalogue_text.specs.declared.mistake.Mistake.{Mistake};
ghost use Rattle.scl_rows.specs.contracts.destination.DestinationPartialEq.TheImpl as destinations;
ghost use Rattle.scl_rows.specs.declared.destination.Destination.{Destination};
ghost use Rattle.scl_gnu_reading.specs.ClangRows.{clang_tables};
ghost use Rattle.scl_msvc_reading.specs.Places as msvc;
ghost use Rattle.scl_msvc_reading.specs.Rows.{msvc_tables};
ghost use Rattle.scl_small.specs.contracts.diab.data.KindPartialEq.TheImpl as diab_kinds;
ghost use Rattle.scl_small.specs.contracts.tasking_vx.data.KindPartialEq.TheImpl as tasking_kinds;
ghost use Rattle.scl_small.specs.declared.diab.data.Kind as diab_kind;
ghost use Rattle.scl_small.specs.declared.tasking_vx.data.Kind as tasking_kind;
ghost use Rattle.scl_small.specs.DiabReading as diab;
ghost use Rattle.scl_small.specs.DiabTable as diab_table;
ghost use Rattle.scl_small.specs.TaskingReading as tasking;
ghost use Rattle.scl_small.specs.TaskingTable as tasking_table;
ghost use Rattle.scl_describe.specs.Decided.{TellingIsDecided, RowsAreDecided};
ghost use Rattle.scl_describe.specs.Descriptions.{DescriptionsReadBack};
ghost use Rattle.scl_describe.specs.OptionRows.{RowsShareWords, RowsTell};
ghost use Rattle.scl_describe.specs.Explained.{AreExplained, is_refused_somewhere, is_refused_by_msvc, is_refused_by_small};

/// Laws of `==` in crates below that state none themselves: what is equal is one.
pub fn of_equality()
    ensures compilers_are_told_apart { (a b : Compiler) → compilers.ghosts.eq a b ≡ true → a ≡ b }
    ensures mistakes_are_told_apart { (a b : Mistake) → mistakes.ghosts.eq a b ≡ true → a ≡ b }
    ensures destinations_are_told_apart { (a b : Destination) → destinations.ghosts.eq a b ≡ true → a ≡ b }
    ensures diab_kinds_are_told_apart { (a b : diab_kind.Kind) → diab_kinds.ghosts.eq a b ≡ true → a ≡ b }
    ensures tasking_kinds_are_told_apart { (a b : tasking_kind.Kind) → tasking_kinds.ghosts.eq a b ≡ true → a ≡ b }
{}

/// Laws of reasons (docs/RULES.md, Sentences): each flag of a kind that a compiler's table refuses, as the driver's option or
/// passed on, has a sentence for people (`scl_reasons`).
pub fn of_reasons()
    ensures gcc_and_clang { AreExplained is_refused_somewhere (all_rows clang_tables) }
    ensures cl { AreExplained (λ kind. is_refused_by_msvc (msvc.place kind)) (all_rows msvc_tables) }
    ensures diab { AreExplained (λ kind. is_refused_by_small (diab.place kind)) diab_table.rows }
    ensures tasking { AreExplained (λ kind. is_refused_by_small (tasking.place kind)) tasking_table.rows }
{}

/// Laws of the rows of requests (docs/RULES.md, Rows of options):
///
/// - `rows_tell`: where a row is refused, so is the request, as the first such row says; where it is read, the rows make the
///   lists of its record;
/// - `rows_share_words`: the words that rows were cut from, in order, are those of the given line and of the inner ones,
///   response files put in place, each once, as they stood.
pub fn of_rows()
    ensures rows_tell { RowsTell }
    ensures rows_share_words { RowsShareWords }
{}

/// Laws of what is reported of a request (docs/RULES.md, Questions): of every disk that has what its view has, and none of its
/// answer's questions,
///
/// - `rows_are_decided`: the rows are the same;
/// - `telling_is_decided`: so is what is reported, the hazards and effects, by whatever is known of the compiler.
pub fn of_questions()
    ensures rows_are_decided { RowsAreDecided }
    ensures telling_is_decided { TellingIsDecided }
{}

/// Laws of descriptions (docs/RULES.md, Descriptions):
///
/// - `descriptions_read_back`: the description of a command, its answer's lines among them, gives the record that was read.
pub fn of_descriptions()
    ensures descriptions_read_back { DescriptionsReadBack }
{}
