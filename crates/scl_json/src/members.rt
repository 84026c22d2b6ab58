//! Which member of the JSON a row has, and in which form.
ghost use Rattle.std.specs.Prelude.{◌≡◌, map, find};
ghost use Rattle.std.specs.Option.{option_map};
ghost use Rattle.scl_json.specs.Members.{is_of, table};
ghost use Rattle.scl_json.specs.MembersGiven.{given};

/// The form of a member.
#[derive(Clone, Copy)]
pub(crate) enum Form {
    /// The row's name.
    Named,
    /// The number that the row says.
    Number,
    /// Whether the row says `yes`.
    Truth,
    /// Whether there is a row.
    Yes,
    /// What the first row says.
    One,
    /// An array of what each row says.
    Each,
    /// An array with an array of the fields of each row.
    Rows,
    /// An array with an object for each row.
    Objects,
}

/// The member that the rows of a name have.
pub(crate) struct Member {
    pub(crate) row: &'static str,
    pub(crate) name: &'static str,
    pub(crate) form: Form,
    pub(crate) fields: &'static [&'static str],
}

macro_rules! members {
    ($($row:literal $name:literal $form:ident [$($field:literal)*],)*) => {
        [$(Member {
            row: $row,
            name: $name,
            form: Form::$form,
            fields: &[$($field),*],
        }),*]
    };
}

/// The rows of docs/PROTOCOL.md, and those that the program adds.
static MEMBERS: &[Member] = &members![
    "version" "version" Number [],
    "ok" "outcome" Named [],
    "cannot-cache" "outcome" Named [],
    "not-compilation" "outcome" Named [],
    "too-many-words" "outcome" Named [],
    "arg" "command" Each [],
    "cacheable" "cacheable" Truth [],
    "input" "input" One [],
    "double-dash-input" "double_dash_input" Yes [],
    "language" "language" One [],
    "compilation-flag" "compilation_flag" One [],
    "depfile" "depfile" One [],
    "output" "outputs" Objects ["name" "path" "optional"],
    "dependency" "dependency_words" Each [],
    "preprocessor" "preprocessor_words" Each [],
    "common" "common_words" Each [],
    "arch" "arch_words" Each [],
    "unhashed" "unhashed_words" Each [],
    "dist" "dist_files" Each [],
    "hash" "hash_files" Each [],
    "external-assembler" "external_assembler" Yes [],
    "show-includes" "show_includes" Yes [],
    "explicit-language" "explicit_language" Yes [],
    "profile-generate" "profile_generate" Yes [],
    "color" "color" One [],
    "no-rewrite-includes-only" "no_rewrite_includes_only" Yes [],
    "too-hard" "too_hard" One [],
    "run" "preprocessor" Rows [],
    "environment" "environment" Objects ["name" "value"],
    "reason" "reason" One [],
    "because" "detail" One [],
    "at" "at" Number [],
    "sentence" "sentence" One [],
    "option" "options" Objects ["origin" "goes_to" "at" "kind" "flag" "value" "given"],
    "hazard" "hazard_names" Each [],
    "wants" "wants" Objects ["kind" "path"],
    "key" "key" Rows [],
    "direct" "direct" Rows [],
    "keep" "keep" Rows [],
    "directory-in-object" "directory_in_object" One [],
    "reads" "reads" Rows [],
    "reads-like" "reads-like" Rows [],
    "writes" "writes" Rows [],
    "writes-like" "writes-like" Rows [],
    "loads" "loads" Rows [],
    "loads-like" "loads-like" Rows [],
    "asks" "asks" Rows [],
    "entry" "entry" Number [],
    "file" "file" One [],
    "error" "error" One [],
    "compiler" "compiler" One [],
    "program" "program" One [],
    "directory" "directory" One [],
    "response-file" "response_files" Each [],
    "missing-file" "missing_files" Each [],
    "unrunnable" "unrunnable" One [],
    "nothing" "reason" One [],
    "danger" "hazards" Objects ["name" "danger" "consequence"],
];

#[tactic(auto, unfolding(crate::specs::Members::table))]
fn members() -> &'static [Member]
    ensures { map given result.now ≡ table }
{
    MEMBERS
}

fn is_of(member: &Member, row: &[u8]) -> bool
    ensures { result ≡ is_of row.now (given member.now) }
{
    member.row.as_bytes() == row
}

/// The member that the table gives to the rows of this name.
pub(crate) fn member_of(row: &[u8]) -> Option<&'static Member>
    ensures { option_map (λ it. given it.now) result ≡ find (is_of row.now) table }
{
    let all = members();
    for member in all {
        if is_of(member, row) {
            return Some(member);
        }
    }
    None
}
