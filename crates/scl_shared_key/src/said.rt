//! What is said of an object: whether it names the place where it is made, and what else may make it name one.
ghost use Rattle.std.specs.Prelude.{◌≡◌};
ghost use Rattle.scl_shared_key.specs.Verdicts.{in_object_name, names_by_gcc, names_planned, names_shown};

/// Whether an object names one of the base directories.
#[derive(Debug, Clone, Copy, PartialEq, Eq)]
pub enum InObject {
    /// No.
    No,
    /// Yes, or it is not known.
    Yes,
    /// It would, but prefix maps write other names in their place.
    Mapped,
}

impl InObject {
    /// Its name in rows.
    pub fn name(self) -> &'static str
        ensures { result.now ≡ in_object_name self }
    {
        match self {
            InObject::No => "no",
            InObject::Yes => "yes",
            InObject::Mapped => "mapped",
        }
    }
}

/// What is said of an object.
#[derive(Debug, Clone, Copy)]
pub struct Verdict {
    /// Whether it names one of the base directories.
    pub in_object: InObject,
    /// What in a text makes it name a source.
    pub shown: &'static str,
    /// What in a plan makes it name a directory or a source.
    pub planned: &'static str,
}

/// What in a text makes an object of Gcc name a source, if maps free macros or do not. Of a directive `.loc` the assembler makes
/// debug information of its own, with its directory.
fn names_by_gcc(macros_are_free: bool) -> &'static str
    ensures { result.now ≡ names_by_gcc macros_are_free }
{
    if macros_are_free {
        "\\.[Ll][Oo][Cc]([^A-Za-z0-9_]|$)|__builtin_dump_struct"
    } else {
        "\\.[Ll][Oo][Cc]([^A-Za-z0-9_]|$)|__builtin_(FILE|source_location|dump_struct)"
    }
}

/// What in a text makes the object name a source.
pub(crate) fn names_shown(gcc: bool, macros_are_free: bool) -> &'static str
    ensures { result.now ≡ names_shown gcc macros_are_free }
{
    if gcc {
        names_by_gcc(macros_are_free)
    } else {
        "__builtin_(FILE|source_location|dump_struct)|__PRETTY_FUNCTION__"
    }
}

/// What in a plan makes the object name a directory or a source.
pub(crate) fn names_planned(in_object: InObject) -> &'static str
    ensures { result.now ≡ names_planned in_object }
{
    match in_object {
        InObject::No =>
            "[ \"'](-debug-info-kind|--?g([^0n]|$)|-f(profile|test-coverage|coverage-mapping|sanitize|lto|embed-bitcode|pseudo-probe|unique-internal|record)|-emit-llvm|-coverage-(data|notes)|-dwarf-debug-flags|-record-command-line)",
        InObject::Yes | InObject::Mapped =>
            "[ \"'](-f(profile|test-coverage|coverage-mapping|sanitize|lto|embed-bitcode|pseudo-probe|unique-internal|record)|-emit-llvm|-coverage-(data|notes)|-dwarf-debug-flags|-record-command-line)",
    }
}
