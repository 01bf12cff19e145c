//! The cache of what was computed last of vector sets.

ghost use Rattle.std.specs.Prelude.{◌≡◌, ◌<◌, ◌≤◌, ◌⊎◌, [], length, nat_eq, IfOk, IfSome};
ghost use Rattle.std.specs.Map.{lookup, remove_entry};
ghost use Rattle.lru.specs.LruCache.{lru_cache, put_entries};
ghost use Rattle.acvp_desk.specs.Cached.{seed_at, AreStandard, IsStandardOf, IsTrueTo};

use crate::entry::Entry;
use crate::standard::Standard;
use acvp_answers::Answers;
use acvp_caps::Capability;
use acvp_gen::Seeds;
use lru::LruCache;
use std::alloc::{AllocError, Global};
use std::marker::Model;
use std::num::NonZeroUsize;

/// The most entries.
const CAPACITY: usize = 64;

/// The most sets of which standard answers are kept beside the entries.
const STANDARDS: usize = 1024;

/// The seeds of a server, and what was computed last under them, by the numbers of the vector sets. Each entry has the
/// prompts, and the standard answers where they were made, of the vector set of its number. What isn't there is made
/// anew, so an entry that is pushed out, or that memory is refused for, is lost without harm.
///
/// A Monte Carlo test takes 100,000 digests, and its answers are few: so the standard answers of sets that have one are
/// kept for longer, without the prompts.
#[derive(Drop)]
pub(crate) struct Cache {
    seeds: Seeds,
    entries: LruCache<u64, Entry>,
    standards: LruCache<u64, Standard>,
}

impl Model for Cache {
    ghost use Rattle.std.specs.Prelude.{◌≡◌};
    ghost use Rattle.acvp_desk.specs.CacheValue.{CacheValue};
    ghost use Rattle.acvp_desk.specs.Cached.{AreStandards, AreTrueTo};

    ghost Value = { CacheValue };

    ghost view = { λ c. record { seeds = c.seeds; entries = c.entries.entries } };

    ghost invariant = { λ c. (c.entries.cap ≡ 64) × AreTrueTo c.seeds c.entries.entries
        × AreStandards c.seeds c.standards.entries };
}

/// The seed of an epoch that has one.
fn seed_of(seeds: &Seeds, epoch: u64) -> &[u8; 32]
    requires { epoch < length seeds.now }
    ensures { result.now ≡ seed_at seeds.now epoch }
{
    seeds.get(epoch).unwrap()
}

impl Cache {
    /// An empty cache under these seeds.
    pub(crate) fn new(alloc: Global, seeds: Seeds) -> Result<Cache, AllocError>
        ensures { IfOk result (λ c. c ≡ record { seeds = seeds; entries = [] }) }
    {
        let capacity = NonZeroUsize::new(CAPACITY).unwrap();
        let entries = LruCache::new(alloc, capacity)?;
        let standards = LruCache::sparse(alloc, NonZeroUsize::new(STANDARDS).unwrap())?;
        Ok(Cache {
            seeds,
            entries,
            standards,
        })
    }

    /// The seeds.
    pub(crate) fn seeds(&self) -> &Seeds
        ensures { result.now ≡ self.now.seeds }
    {
        &self.seeds
    }

    /// The number of entries. It takes no memory.
    pub(crate) fn cached(&self) -> usize
        ensures value { result ≡ length self.now.entries }
        ensures most { result ≤ 64 }
    {
        self.entries.len()
    }

    /// Takes the entry of a vector set out of the cache, or makes it where there is none of this capability and epoch.
    pub(crate) fn take(
        &mut self,
        alloc: Global,
        number: u64,
        capability: Capability,
        epoch: u64,
    ) -> Result<Entry, AllocError>
        requires { epoch < length self.old.seeds }
        ensures is_true { IfOk result (IsTrueTo self.old.seeds number) }
        ensures capability { IfOk result (λ e. e.capability ≡ capability) }
        ensures epoch { IfOk result (λ e. e.epoch ≡ epoch) }
        ensures seeds { self.new.seeds ≡ self.old.seeds }
        ensures entries { self.new.entries ≡ remove_entry (nat_eq number) self.old.entries }
    {
        match self.take_kept(number) {
            Some(entry) if entry.is_of(&capability, epoch) => Ok(entry),
            _ => self.make(alloc, number, capability, epoch),
        }
    }

    /// Makes the entry of a vector set, with its standard answers where they are kept.
    fn make(
        &mut self,
        alloc: Global,
        number: u64,
        capability: Capability,
        epoch: u64,
    ) -> Result<Entry, AllocError>
        requires { epoch < length self.old.seeds }
        ensures is_true { IfOk result (IsTrueTo self.old.seeds number) }
        ensures capability { IfOk result (λ e. e.capability ≡ capability) }
        ensures epoch { IfOk result (λ e. e.epoch ≡ epoch) }
        ensures same { self.new ≡ self.old }
    {
        let standard = self.take_standard(number, &capability, epoch);
        let seed = seed_of(&self.seeds, epoch);
        Entry::make(alloc, seed, number, capability, epoch, standard)
    }

    /// Takes the standard answers of a vector set out, where they are kept of this capability and epoch.
    fn take_standard(&mut self, number: u64, capability: &Capability, epoch: u64) -> Option<Answers>
        ensures are_true { IfSome result (AreStandard self.old.seeds number capability.now epoch) }
        ensures same { self.new ≡ self.old }
    {
        match self.take_kept_standard(number) {
            Some(kept) if kept.is_of(capability, epoch) => Some(kept.answers),
            _ => None,
        }
    }

    /// Takes the standard answers of a vector set out, whatever capability and epoch they are of.
    fn take_kept_standard(&mut self, number: u64) -> Option<Standard>
        ensures is_true { IfSome result (IsStandardOf self.old.seeds number) }
        ensures same { self.new ≡ self.old }
    {
        self.standards.pop(&number)
    }

    /// Puts the standard answers of a vector set in. Where memory is refused they aren't kept.
    fn put_standard(&mut self, number: u64, standard: Standard)
        requires { IsStandardOf self.old.seeds number standard }
        ensures { self.new ≡ self.old }
    {
        let _ = self.standards.put(number, standard);
    }

    /// Keeps a copy of the standard answers of an entry that were made and take long to make.
    fn keep_standard(&mut self, number: u64, entry: &Entry)
        requires { IsTrueTo self.old.seeds number entry.now }
        ensures { self.new ≡ self.old }
    {
        if entry.takes_long()
            && !self.standards.contains(&number)
            && let Some(standard) = Standard::of(entry)
        {
            self.put_standard(number, standard);
        }
    }

    /// Takes the entry of a vector set out of the cache, whatever capability and epoch it is of.
    fn take_kept(&mut self, number: u64) -> Option<Entry>
        ensures value { result ≡ lookup (nat_eq number) self.old.entries }
        ensures is_true { IfSome result (IsTrueTo self.old.seeds number) }
        ensures seeds { self.new.seeds ≡ self.old.seeds }
        ensures entries { self.new.entries ≡ remove_entry (nat_eq number) self.old.entries }
    {
        self.entries.pop(&number)
    }

    /// Puts the entry of a vector set in, as the most recently used. Of 64 others the least recently used is pushed
    /// out. Where memory is refused the entry isn't kept.
    pub(crate) fn keep(&mut self, number: u64, entry: Entry)
        requires { IsTrueTo self.old.seeds number entry }
        ensures seeds { self.new.seeds ≡ self.old.seeds }
        ensures entries { (self.new.entries ≡ put_entries nat_eq (lru_cache self.old.entries 64) number entry)
            ⊎ (self.new.entries ≡ self.old.entries) }
    {
        self.keep_standard(number, &entry);
        let _ = self.entries.put(number, entry);
    }
}
