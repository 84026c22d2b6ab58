//! What follows for the tables of Msvc. Each law is a clause of a function with an empty body.
ghost use Rattle.std.specs.Prelude.{◌≡◌, ◌∷◌, [], true, codes};
ghost use Rattle.scl_values.specs.Tables.{all_rows};
ghost use Rattle.scl_args.specs.Options as listed;
ghost use Rattle.scl_args.specs.Checks.{PassChecks, JoinSafely, has_no_kept};
ghost use Rattle.scl_args.specs.NoFiles.{has_plain_flags};
ghost use Rattle.scl_gnu_reading.specs.ClangRows.{clang_tables};
ghost use Rattle.scl_msvc_reading.specs.Again.{carried, carried_inner};
ghost use Rattle.scl_msvc_reading.specs.Places.{side_of_flag};
ghost use Rattle.scl_msvc_reading.specs.Reads.{ReadingsSay};
ghost use Rattle.scl_msvc_reading.specs.Rows.{msvc_tables};
ghost use Rattle.scl_msvc_reading.specs.declared.msvc.data.Kind.{Kind};
ghost use Rattle.scl_msvc_reading.specs.declared.msvc.place.Place.{Place};
ghost use Rattle.scl_msvc_reading.specs.contracts.msvc.data.KindPartialEq.TheImpl as kinds;
ghost use Rattle.scl_msvc_reading.specs.contracts.msvc.place.PlacePartialEq.TheImpl as places;

/// Laws of `==`, which definitions cite: kinds of options that are equal are the same, and so are places.
pub fn of_equality()
    ensures kinds_are_told_apart { (a b : Kind) → kinds.ghosts.eq a b ≡ true → a ≡ b }
    ensures places_are_told_apart { (a b : Place) → places.ghosts.eq a b ≡ true → a ≡ b }
{}

/// Laws of the written tables (docs/RULES.md, Cutting again, and Words that name response files):
///
/// - `msvc_tables_pass_both_checks`: the tables pass both checks for the kinds that lists carry, each flag on its side;
/// - `own_flags_join_safely`: the rows with the flags of own words, and of words for inner command lines, pass both checks as
///   if each were printed joined. No other row has such a flag, and no flag extends one;
/// - `clang_tables_pass_both_checks_inside`: Clang's tables pass both for the kinds of inner options that Msvc's lists carry;
/// - `no_list_carries_xclang`, `no_list_carries_clang`: no list carries an outer option with the flag `-Xclang`, nor one with
///   `-clang:`;
/// - `carried_flags_name_no_file`, `carried_inner_flags_name_no_file`: no flag of Msvc's tables whose options lists carry
///   begins with `@`, and none of Clang's that inner lists carry.
pub fn of_tables()
    ensures msvc_tables_pass_both_checks { PassChecks msvc_tables carried side_of_flag }
    ensures own_flags_join_safely { JoinSafely msvc_tables (codes "-Fo" ∷ codes "-Tc" ∷ codes "-Tp" ∷ codes "-clang:" ∷ []) }
    ensures clang_tables_pass_both_checks_inside { PassChecks clang_tables carried_inner listed.side_of_flag }
    ensures no_list_carries_xclang { has_no_kept carried (codes "-Xclang") (all_rows msvc_tables) ≡ true }
    ensures no_list_carries_clang { has_no_kept carried (codes "-clang:") (all_rows msvc_tables) ≡ true }
    ensures carried_flags_name_no_file { has_plain_flags carried (all_rows msvc_tables) ≡ true }
    ensures carried_inner_flags_name_no_file { has_plain_flags carried_inner (all_rows clang_tables) ≡ true }
{}

/// The law of readings (docs/RULES.md, Msvc): the outcome of a reading is that of its words, whichever given words they came
/// from, and whichever the environment gave.
pub fn of_readings()
    ensures readings_say { ReadingsSay }
{}
