//! Answers in the order of their numbers.
ghost use Rattle.std.specs.Prelude.{map, string_bytes};
ghost use Rattle.std.specs.Iterator.{YieldsFirstBy, item_count};

use std::collections::btree_map;
use std::marker::Model;

/// The answers of a list in its order, each by its test's number and its texts. Contracts see the list of those that
/// are left. It takes no memory.
#[derive(Drop)]
pub struct Iter<'a> {
    pub(crate) entries: btree_map::Iter<'a, u64, Vec<String>>,
}

impl<'a> Model for Iter<'a> {
    ghost use Rattle.std.specs.Prelude.{List};
    ghost use Rattle.acvp_answers.specs.Answer.{Answer, shown};

    ghost Value = { List Answer };

    ghost view = { λ it. shown it.entries };
}

impl<'a> Iterator for Iter<'a> {
    type Item = (u64, &'a [String]);

    ghost next_gives = { YieldsFirstBy (λ item. (item.0, map string_bytes item.1.now)) (λ left. left) };

    ghost remaining = { item_count (λ left. left) };

    fn next(&mut self) -> Option<(u64, &'a [String])> {
        let (number, texts) = self.entries.next()?;
        Some((*number, texts))
    }
}
