//! The seeds of a server, by epoch.

ghost use Rattle.std.specs.Prelude.{◌≡◌, ◌+◌, ◌<◌, SomeIff, length, option_copied, slice_get};
ghost use Rattle.acvp_gen.specs.Seeds.{AreSeeds};

use std::marker::Model;

/// The most seeds that are kept.
const SEED_LIMIT: usize = 16;

/// The seeds of a server, from 1 to 16 of them, each of 32 bytes. A seed's place, counted from 0, is its epoch, which a
/// vector set keeps: its prompts are made anew under that seed, whatever seeds came after it. Contracts see the list of
/// the seeds. No call takes memory.
#[derive(Drop)]
pub struct Seeds {
    places: [[u8; 32]; 16],
    count: usize,
}

impl Model for Seeds {
    ghost use Rattle.std.specs.Prelude.{List, ℕ, ◌≤◌, take};

    ghost Value = { List (List ℕ) };

    ghost view = { λ s. take s.count s.places };

    ghost invariant = { λ s. (1 ≤ s.count) × (s.count ≤ 16) };
}

impl Seeds {
    /// The seeds in their order, the oldest first; none where there are none or more than 16.
    pub fn of(seeds: &[[u8; 32]]) -> Option<Seeds>
        ensures { SomeIff result (AreSeeds seeds.now) seeds.now }
    {
        if seeds.is_empty() || seeds.len() > SEED_LIMIT {
            return None;
        }
        let mut places = [[0; 32]; 16];
        places[..seeds.len()].copy_from_slice(seeds);
        Some(Seeds {
            places,
            count: seeds.len(),
        })
    }

    /// The epoch of the newest seed, the last place.
    pub fn newest(&self) -> u64
        ensures value { result + 1 ≡ length self.now }
        ensures few { result < 16 }
    {
        self.count as u64 - 1
    }

    /// The seed of an epoch: none of one that is still to come.
    pub fn get(&self, epoch: u64) -> Option<&[u8; 32]>
        ensures { option_copied result ≡ slice_get self.now epoch }
    {
        self.places[..self.count].get(epoch as usize)
    }
}
