//! What follows for the tables of Gcc and Clang. Each law is a clause of a function with an empty body.
ghost use Rattle.std.specs.Prelude.{◌≡◌, ◌∷◌, [], true, codes};
ghost use Rattle.scl_values.specs.Tables.{all_rows};
ghost use Rattle.scl_args.specs.Options.{side_of_flag};
ghost use Rattle.scl_args.specs.Checks.{PassChecks, has_no_kept};
ghost use Rattle.scl_args.specs.NoFiles.{has_plain_flags};
ghost use Rattle.scl_gnu_reading.specs.Again.{carried, carried_inner};
ghost use Rattle.scl_gnu_reading.specs.ClangRows.{clang_tables};
ghost use Rattle.scl_gnu_reading.specs.GccRows.{gcc_rows};
ghost use Rattle.scl_gnu_reading.specs.Reads.{ReadingsSay};
ghost use Rattle.scl_gnu_reading.specs.declared.gcc.data.Kind.{Kind};
ghost use Rattle.scl_gnu_reading.specs.declared.gcc.place.Place.{Place};
ghost use Rattle.scl_gnu_reading.specs.declared.gcc.hash_files.HashRole.{HashRole};
ghost use Rattle.scl_gnu_reading.specs.contracts.gcc.data.KindPartialEq.TheImpl as kinds;
ghost use Rattle.scl_gnu_reading.specs.contracts.gcc.hash_files.HashRolePartialEq.TheImpl as roles;
ghost use Rattle.scl_gnu_reading.specs.contracts.gcc.place.PlacePartialEq.TheImpl as places;

/// Laws of `==`, which definitions cite: kinds of options that are equal are the same, and so are places, and roles of hashed
/// files.
pub fn of_equality()
    ensures kinds_are_told_apart { (a b : Kind) → kinds.ghosts.eq a b ≡ true → a ≡ b }
    ensures places_are_told_apart { (a b : Place) → places.ghosts.eq a b ≡ true → a ≡ b }
    ensures roles_are_told_apart { (a b : HashRole) → roles.ghosts.eq a b ≡ true → a ≡ b }
{}

/// Laws of the written tables (docs/RULES.md, Cutting again, and Words that name response files):
///
/// - `gcc_table_passes_both_checks`, `clang_tables_pass_both_checks`: the tables pass both checks for the kinds that lists
///   carry;
/// - `clang_tables_pass_both_checks_inside`: Clang's tables pass both for the kinds of inner options that lists carry;
/// - `no_list_carries_xclang`: no list carries an outer option with the flag `-Xclang`;
/// - `carried_flags_name_no_file`, `carried_inner_flags_name_no_file`: no flag of Clang's tables whose options lists carry,
///   outer or inner, begins with `@`.
pub fn of_tables()
    ensures gcc_table_passes_both_checks { PassChecks (gcc_rows ∷ []) carried side_of_flag }
    ensures clang_tables_pass_both_checks { PassChecks clang_tables carried side_of_flag }
    ensures clang_tables_pass_both_checks_inside { PassChecks clang_tables carried_inner side_of_flag }
    ensures no_list_carries_xclang { has_no_kept carried (codes "-Xclang") (all_rows clang_tables) ≡ true }
    ensures carried_flags_name_no_file { has_plain_flags carried (all_rows clang_tables) ≡ true }
    ensures carried_inner_flags_name_no_file { has_plain_flags carried_inner (all_rows clang_tables) ≡ true }
{}

/// The law of readings (docs/RULES.md, Gcc): the outcome of a reading is that of its words, whichever given words they came
/// from.
pub fn of_readings()
    ensures readings_say { ReadingsSay }
{}
