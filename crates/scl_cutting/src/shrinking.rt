//! An iterator that frees a list's memory as it goes.
ghost use Rattle.std.specs.Prelude.{◌≡◌};

use std::marker::Model;

/// The items of a list, first to last. The list's memory is freed on the way: it takes at most twice what the remaining items
/// take.
#[derive(Debug, Drop)]
pub struct ShrinkingIter<T> {
    reversed: Vec<T>,
}

impl<T> Model for ShrinkingIter<T> {
    ghost use Rattle.std.specs.Prelude.{List, reverse};

    ghost Value = { List T };

    ghost view = { λ iter. reverse iter.reversed.items };
}

impl<T> ShrinkingIter<T> {
    /// The items of the list. It allocates nothing.
    pub fn new(list: Vec<T>) -> ShrinkingIter<T>
        ensures { result ≡ list.items }
    {
        let mut reversed = list;
        reversed.reverse();
        ShrinkingIter { reversed }
    }
}

impl<T: Drop> Iterator for ShrinkingIter<T> {
    ghost use Rattle.std.specs.Prelude.{◌≡◌, ◌++◌, length};
    ghost use Rattle.std.specs.Option.{option_to_list};
    ghost use Rattle.std.specs.Iterator.{at_most};
    ghost use Rattle.scl_cutting.specs.Shrinking.{TakesFirst};

    type Item = T;

    ghost next_gives = { TakesFirst };

    ghost remaining = { λ items. at_most (length items) };

    fn next(&mut self) -> Option<T> {
        let item = self.reversed.pop();
        if self.reversed.len() < self.reversed.capacity() / 2 {
            self.reversed.shrink_to_fit();
        }
        item
    }
}
