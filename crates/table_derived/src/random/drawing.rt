//! Random choices.
use rand::rngs::SmallRng;
use rand::seq::{IndexedRandom, SliceRandom};
use rand::{RngExt, SeedableRng};

/// A stream of choices, which are the same for the same seed.
#[derive(Drop)]
pub struct Drawing {
    rng: SmallRng,
}

impl Drawing {
    /// The stream of a seed.
    pub fn new(seed: u64) -> Self {
        Drawing {
            rng: SmallRng::seed_from_u64(seed),
        }
    }

    /// A number below `count`, or 0 where there is none.
    pub fn below(&mut self, count: usize) -> usize {
        if count == 0 {
            0
        } else {
            self.rng.random_range(0..count)
        }
    }

    /// Whether something is done that is done once in so many times.
    pub fn is_once_in(&mut self, times: usize) -> bool {
        self.below(times) == 0
    }

    /// Any 64 bits.
    pub fn bits(&mut self) -> u64 {
        self.rng.random()
    }

    /// One of the items, or `other` where there is none.
    pub fn choose<T: Copy>(&mut self, items: &[T], other: T) -> T {
        match items.choose(&mut self.rng) {
            Some(item) => *item,
            None => other,
        }
    }

    /// Puts the items in any order.
    pub fn shuffle<T>(&mut self, items: &mut [T]) {
        items.shuffle(&mut self.rng);
    }
}
