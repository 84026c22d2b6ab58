//! Which release answers, by the rules of which sccache.
ghost use Rattle.std.specs.Prelude.{◌≡◌, IfOk, MatchResult, Ok, Err};
ghost use Rattle.scl_description.specs.Lines.{lines_of};
ghost use Rattle.scl_requests.specs.Making.{made_by};

use scl_cl::Mem;
use scl_description::{next_line, push_word};
use scl_talks::{RELEASE, RULES};
use std::alloc::Global;

/// What is answered to the lines after a first line `made-by`: there may be none.
#[tactic(auto, unfolding(scl_description::specs::Rows::entry_text))]
pub(crate) fn made_by(alloc: Global, lines: &[u8]) -> Mem<Result<Vec<u8>, u64>>
    ensures { IfOk result (λ said. MatchResult said (λ text. made_by (lines_of lines.now) ≡ Ok text.items) (λ number. made_by (lines_of lines.now) ≡ Err number)) }
{
    if next_line(lines).is_some() {
        return Ok(Err(2));
    }
    let mut text = Vec::new(alloc);
    push_word(&mut text, "made-by", RELEASE.as_bytes())?;
    push_word(&mut text, "rules", RULES.as_bytes())?;
    push_word(&mut text, "version", b"1")?;
    Ok(Ok(text))
}
