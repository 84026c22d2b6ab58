//! Which response files a view has.
ghost use Rattle.std.specs.Prelude.{◌≡◌, IfOk};
ghost use Rattle.scl_values.specs.Words.{words_of};
ghost use Rattle.scl_explain.specs.Seen.{IsSeen};

use scl_reader::{Mem, View};
use std::alloc::Global;

/// Paths of response files, divided by whether a view has a file there.
#[derive(Drop)]
pub(crate) struct Seen {
    /// Those at which it has one.
    pub(crate) found: Vec<Vec<u8>>,
    /// Those at which it has none.
    pub(crate) missing: Vec<Vec<u8>>,
}

impl Seen {
    /// Of these paths in a view.
    pub(crate) fn in_view(alloc: Global, view: &View, paths: Vec<Vec<u8>>) -> Mem<Seen>
        ensures { IfOk result (λ seen. IsSeen view.now (words_of seen.found.items) (words_of seen.missing.items)) }
    {
        let (mut found, mut missing) = (Vec::new(alloc), Vec::new(alloc));
        for path in paths {
            if view.file(&path).is_some() {
                found.push(path)?;
            } else {
                missing.push(path)?;
            }
        }
        Ok(Seen { found, missing })
    }
}
