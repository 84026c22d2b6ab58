//! What follows for the tables and commands of Diab and TaskingVX. Each law is a clause of a function with an empty body.
ghost use Rattle.std.specs.Prelude.{◌≡◌, ◌∷◌, [], true};
ghost use Rattle.scl_args.specs.Options.{side_of_flag};
ghost use Rattle.scl_args.specs.Checks.{PassChecks};
ghost use Rattle.scl_small.specs.OwnTables.{OwnDiabCommandsAreReadAgain, OwnTaskingCommandsAreReadAgain};
ghost use Rattle.scl_small.specs.ReadAgain.{every_kind, CommandsAreReadAgain, RecordsHaveObjects, LinesHaveNoEmpty};
ghost use Rattle.scl_small.specs.Reads.{ReadingsSay};
ghost use Rattle.scl_small.specs.DiabTable as diab_table;
ghost use Rattle.scl_small.specs.DiabReading as diab;
ghost use Rattle.scl_small.specs.TaskingTable as tasking_table;
ghost use Rattle.scl_small.specs.TaskingReading as tasking;
ghost use Rattle.scl_small.specs.declared.diab.data.Kind.TheVariants as diab_kinds;
ghost use Rattle.scl_small.specs.declared.tasking_vx.data.Kind.TheVariants as tasking_kinds;
ghost use Rattle.scl_small.specs.declared.place.Place.{Place};
ghost use Rattle.scl_small.specs.contracts.place.PlacePartialEq.TheImpl as places;

/// The law of `==`, which definitions cite: places of options that are equal are the same.
pub fn of_equality()
    ensures places_are_told_apart { (a b : Place) → places.ghosts.eq a b ≡ true → a ≡ b }
{}

/// Laws of the written tables: each passes both checks (docs/RULES.md, Cutting again).
pub fn of_tables()
    ensures diab_table_passes_both_checks { PassChecks (diab_table.rows ∷ []) every_kind side_of_flag }
    ensures tasking_table_passes_both_checks { PassChecks (tasking_table.rows ∷ []) every_kind side_of_flag }
{}

/// Laws of the records of Diab, of words with response files expanded, and of TaskingVX (docs/RULES.md, Cutting again):
///
/// - `diab_has_objects`, `tasking_has_objects`: a record that was read has an object, and so a command;
/// - `diab_has_no_empty`, `tasking_has_no_empty`: if a command line has a record, no option has an empty value of an either
///   row.
pub fn of_records()
    ensures diab_has_objects { RecordsHaveObjects (diab_table.rows ∷ []) diab.reading }
    ensures tasking_has_objects { RecordsHaveObjects (tasking_table.rows ∷ []) tasking.reading }
    ensures diab_has_no_empty { LinesHaveNoEmpty (diab_table.rows ∷ []) diab.reading }
    ensures tasking_has_no_empty { LinesHaveNoEmpty (tasking_table.rows ∷ []) tasking.reading }
{}

/// Laws of the commands of records (docs/RULES.md, Cutting again): each, cut again by its compiler's table, gives its own
/// words, the carried options with unchanged values, and the input.
pub fn of_commands()
    ensures diab_commands_are_read_again { CommandsAreReadAgain diab.place diab_kinds.DoCompilation diab_kinds.Output (diab_table.rows ∷ []) diab.reading }
    ensures tasking_commands_are_read_again { CommandsAreReadAgain tasking.place tasking_kinds.DoCompilation tasking_kinds.Output (tasking_table.rows ∷ []) tasking.reading }
{}

/// Laws of commands by a caller's own tables (docs/RULES.md, Cutting again). Suppose that `keep_diab_words` or
/// `keep_tasking_words`, which can be computed, is true of the tables. Then the command of each record by them, cut again by
/// them, gives its own words, the carried options with unchanged values, and the input.
pub fn of_own_tables()
    ensures own_diab_commands_are_read_again { OwnDiabCommandsAreReadAgain }
    ensures own_tasking_commands_are_read_again { OwnTaskingCommandsAreReadAgain }
{}

/// The law of readings (docs/RULES.md, Diab and TaskingVX): the outcome of a reading is that of its words.
pub fn of_readings<K>()
    ensures readings_say { ReadingsSay K }
{}
