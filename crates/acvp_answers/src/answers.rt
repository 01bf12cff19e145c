//! Answers to tests, by their numbers.
ghost use Rattle.std.specs.Prelude.{◌≡◌, ◌<◌, [], Some, Contains, length, map, string_bytes, MatchResult, MatchBool};
ghost use Rattle.std.specs.Prelude.{option_map};
ghost use Rattle.std.specs.BTreeMap.{insert_entry};
ghost use Rattle.std.specs.Ordering.{nat_cmp};
ghost use Rattle.std.specs.List.{slice_get};
ghost use Rattle.std.specs.Map.{keys_of};
ghost use Rattle.acvp_answers.specs.Answer.{AreAscending, is_answered, shown};
ghost use Rattle.acvp_answers.specs.Verdicts.{answer_to};

use crate::iter::Iter;
use std::alloc::{AllocError, Global};
use std::collections::BTreeMap;
use std::marker::Model;

/// Answers to tests, ascending by the tests' numbers, each of which stands once.
#[derive(Drop)]
pub struct Answers {
    pub(crate) texts: BTreeMap<u64, Vec<String>>,
}

impl Model for Answers {
    ghost use Rattle.std.specs.Prelude.{List};
    ghost use Rattle.acvp_answers.specs.Answer.{Answer, shown};

    ghost Value = { List Answer };

    ghost view = { λ a. shown a.texts.entries };
}

impl Clone for Answers {
    ghost is_clone = { λ it copy. copy ≡ it };

    fn clone(&self) -> Result<Answers, AllocError> {
        let texts = self.texts.clone()?;
        Ok(Answers { texts })
    }
}

/// The number and the texts at a place of the map, by its order.
fn nth_of(kept: &BTreeMap<u64, Vec<String>>, i: usize) -> Option<(u64, &[String])>
    ensures { option_map (λ e. (e.0, map string_bytes e.1.now)) result ≡ slice_get (shown kept.now.entries) i }
{
    let mut left = i;
    for (number, texts) in kept.iter() {
        if left == 0 {
            return Some((*number, texts));
        }
        left -= 1;
    }
    None
}

impl Answers {
    /// No answers. It takes no memory.
    pub fn new(alloc: Global) -> Answers
        ensures { result ≡ [] }
    {
        Answers {
            texts: BTreeMap::new(alloc),
        }
    }

    /// Adds the answer to a test: `false`, and no change, where one is there already. Nothing changes either where
    /// memory is refused.
    pub fn insert(&mut self, number: u64, texts: Vec<String>) -> Result<bool, AllocError>
        ensures { MatchResult result
            (λ is_new. MatchBool is_new
            (¬ Contains (keys_of self.old) number
            × (self.new ≡ insert_entry nat_cmp self.old number (map string_bytes texts.items)))
            (Contains (keys_of self.old) number × (self.new ≡ self.old)))
            (λ _. self.new ≡ self.old) }
    {
        if self.texts.contains_key(&number) {
            return Ok(false);
        }
        match self.texts.insert(number, texts) {
            Ok(_) => Ok(true),
            Err(_) => Err(AllocError),
        }
    }

    /// How many tests are answered.
    pub fn len(&self) -> usize
        ensures len { result ≡ length self.now }
        ensures ascending { AreAscending self.now }
    {
        self.texts.len()
    }

    /// The number of a test, and the texts that answer it, by its place from 0 on.
    pub fn entry(&self, i: usize) -> (u64, &[String])
        requires { i < length self.now }
        ensures { slice_get self.now i ≡ Some (result.0, map string_bytes result.1.now) }
    {
        match nth_of(&self.texts, i) {
            Some(entry) => entry,
            None => unreachable!(),
        }
    }

    /// The answers in their order, each by its test's number and its texts. It takes no memory.
    pub fn iter(&self) -> Iter<'_>
        ensures value { result ≡ self.now }
        ensures ascending { AreAscending self.now }
    {
        let entries = self.texts.iter();
        Iter { entries }
    }

    /// Whether the test of a number is answered. It takes no memory.
    pub fn contains(&self, number: u64) -> bool
        ensures { result ≡ is_answered self.now number }
    {
        self.texts.contains_key(&number)
    }

    /// The texts that answer the test of a number, where it is answered. It takes no memory.
    pub fn texts_for(&self, number: u64) -> Option<&[String]>
        ensures { option_map (λ texts. map string_bytes texts.now) result ≡ answer_to self.now number }
    {
        match self.texts.get(&number) {
            Some(texts) => Some(texts),
            None => None,
        }
    }
}
