//! The sentence of a reason.
ghost use Rattle.std.specs.Prelude.{◌≡◌, true, map, unwrap_or};
ghost use Rattle.std.specs.List.{flat_map};
ghost use Rattle.std.specs.Option.{option_copied};
ghost use Rattle.scl_reasons.specs.Explanations.{explained, is_one_of, stand_once, text_for, text_given};
ghost use Rattle.scl_reasons.specs.Table.{other, table};

use crate::table::{EXPLANATIONS, OTHER};

/// A sentence for people, which says what reasons mean and what to do; and these reasons, as answers have them.
pub type Explanation = (&'static str, &'static [&'static str]);

/// A law of the table: each reason stands in it once.
pub fn of_table()
    ensures { stand_once (flat_map (λ e. e.reasons) table) ≡ true }
{}

/// All explanations. Each reason that a compiler of this repository gives is in exactly one, once (docs/RULES.md, Sentences).
#[tactic(auto, unfolding(crate::specs::Table::table))]
pub fn explanations() -> &'static [Explanation]
    ensures { map explained result.now ≡ table }
{
    EXPLANATIONS
}

fn is_one_of(reasons: &[&str], reason: &str) -> bool
    ensures { result ≡ is_one_of reasons.now reason.now }
{
    reasons.iter().any(|name| *name == reason)
}

/// The text of the first that explains the reason.
fn text_in(explanations: &[Explanation], reason: &str) -> Option<&'static str>
    ensures { option_copied result ≡ text_given reason.now explanations.now }
{
    let (text, _) = explanations
        .iter()
        .find(|(_, reasons)| is_one_of(reasons, reason))?;
    Some(text)
}

/// The sentence of a reason that a compiler of this repository gives; `None` for any other.
pub fn known_sentence(reason: &str) -> Option<&'static str>
    ensures { option_copied result ≡ text_for reason.now table }
{
    text_in(explanations(), reason)
}

/// A sentence for people: what the reason means, and what to do. For a reason that no compiler of this repository gives, such
/// as a flag of a caller's own table, it says so.
pub fn sentence(reason: &str) -> &'static str
    ensures { result.now ≡ unwrap_or (text_for reason.now table) other }
{
    known_sentence(reason).unwrap_or(OTHER)
}
