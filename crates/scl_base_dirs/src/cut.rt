//! Texts cut at a byte.
ghost use Rattle.std.specs.Prelude.{◌≡◌, true, MatchOption};
ghost use Rattle.scl_base_dirs.specs.Cuts.{has_none, IsCutAt};

/// What stands before and after the first byte that is `mark`.
#[tactic(auto, using(crate::proofs::CutLemmas::cut_rules))]
pub(crate) fn cut_at(mark: u8, text: &[u8]) -> Option<(&[u8], &[u8])>
    ensures { MatchOption result (has_none mark text.now ≡ true) (λ parts. IsCutAt mark text.now parts.0.now parts.1.now) }
{
    for (at, byte) in text.iter().enumerate() {
        if *byte == mark {
            return Some((&text[..at], &text[at + 1..]));
        }
    }
    None
}
