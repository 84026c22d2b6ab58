//! What follows for the commands of Msvc. Each law is a clause of a function with an empty body.
ghost use Rattle.std.specs.Prelude.{◌≡◌, true, string_bytes};
ghost use Rattle.std.specs.Option.{option_map};
ghost use Rattle.scl_msvc.specs.contracts.msvc.compiler.MsvcPartialEq.TheImpl.{ghosts};
ghost use Rattle.scl_msvc.specs.declared.msvc.compiler.Msvc.{Msvc};
ghost use Rattle.scl_msvc.specs.Promises.{MsvcCommandsAreFaithful, MsvcLinesHaveNoEmpty, MsvcRecordsHaveObjects};

pub use scl_msvc_reading::laws::of_tables;

/// Laws of `==`: compilers that are equal have the same prefix and version, and both are cl or both are clang-cl.
pub fn of_equality()
    ensures prefixes_are_told_apart { (a b : Msvc) → ghosts.eq a b ≡ true → string_bytes a.includes_prefix ≡ string_bytes b.includes_prefix }
    ensures compilers_are_told_apart { (a b : Msvc) → ghosts.eq a b ≡ true → a.is_clang ≡ b.is_clang }
    ensures versions_are_told_apart { (a b : Msvc) → ghosts.eq a b ≡ true → option_map string_bytes a.version ≡ option_map string_bytes b.version }
{}

/// Laws of the records of Msvc (docs/RULES.md, Cutting again):
///
/// - `has_objects`: a record that was read has an object, and so a command;
/// - `has_no_empty`: if a command line has a record, none of its options, outer or inner, has an empty value of an either
///   row.
pub fn of_records()
    ensures has_objects { MsvcRecordsHaveObjects }
    ensures has_no_empty { MsvcLinesHaveNoEmpty }
{}

/// The law of the commands of records of Msvc (docs/RULES.md, Cutting again, and Words that name response files):
///
/// - a command, cut again by Msvc's tables, gives its own words and the carried options, with unchanged values, and the
///   input;
/// - the words after `-Xclang`, and those after `-clang:`, cut again, give the inner options, list by list;
/// - it has one input, the record's, raw or as the value of the flag of its language;
/// - no word of it begins with `@` unless the object, an option's value, an input or an unknown flag does, outer or inner.
pub fn of_commands()
    ensures commands_are_faithful { MsvcCommandsAreFaithful }
{}
