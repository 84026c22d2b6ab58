//! The names of rows, and the part of a description that each is of.
ghost use Rattle.std.specs.Prelude.{◌≡◌};
ghost use Rattle.scl_description.specs.Names.{part_in, part_of, parts, rows_of};

/// A part of a description. Its rows are written together.
#[derive(Debug, Clone, Copy, PartialEq, Eq)]
pub enum Part {
    /// What is always reported.
    Always,
    /// The runs of the preprocessor.
    Runs,
    /// The key, and whether there is one. It is judged by what the tables report.
    Key,
    /// What tables report of the compiler: hazards and effects.
    Tables,
    /// What became of the options.
    Options,
    /// The questions of the answer.
    Questions,
}

/// The names of rows, each with its part.
static PARTS: [(&'static str, Part); 41] = [
    ("version", Part::Always),
    ("input", Part::Always),
    ("language", Part::Always),
    ("compilation-flag", Part::Always),
    ("output", Part::Always),
    ("depfile", Part::Always),
    ("preprocessor", Part::Always),
    ("dependency", Part::Always),
    ("arch", Part::Always),
    ("unhashed", Part::Always),
    ("common", Part::Always),
    ("hash", Part::Always),
    ("dist", Part::Always),
    ("environment", Part::Always),
    ("color", Part::Always),
    ("double-dash-input", Part::Always),
    ("external-assembler", Part::Always),
    ("show-includes", Part::Always),
    ("explicit-language", Part::Always),
    ("profile-generate", Part::Always),
    ("no-rewrite-includes-only", Part::Always),
    ("too-hard", Part::Always),
    ("reason", Part::Always),
    ("because", Part::Always),
    ("sentence", Part::Always),
    ("run", Part::Runs),
    ("key", Part::Key),
    ("direct", Part::Key),
    ("keep", Part::Key),
    ("directory-in-object", Part::Key),
    ("hazard", Part::Tables),
    ("reads", Part::Tables),
    ("reads-like", Part::Tables),
    ("writes", Part::Tables),
    ("writes-like", Part::Tables),
    ("loads", Part::Tables),
    ("loads-like", Part::Tables),
    ("asks", Part::Tables),
    ("at", Part::Options),
    ("option", Part::Options),
    ("wants", Part::Questions),
];

#[tactic(auto, unfolding(crate::specs::Names::parts))]
fn parts() -> &'static [(&'static str, Part)]
    ensures { rows_of result.now ≡ parts }
{
    &PARTS
}

/// The part of the first row with this name.
fn part_in(rows: &[(&'static str, Part)], name: &[u8]) -> Option<Part>
    ensures { result ≡ part_in (rows_of rows.now) name.now }
{
    for (text, part) in rows {
        if text.as_bytes() == name {
            return Some(*part);
        }
    }
    None
}

/// The part that has rows of this name.
pub fn part_of(name: &[u8]) -> Option<Part>
    ensures { result ≡ part_of name.now }
{
    part_in(parts(), name)
}
