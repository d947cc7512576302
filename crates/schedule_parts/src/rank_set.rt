//! Sets of small numbers.

/// A set of numbers below 256, whose greatest is found in constant time.
#[derive(Clone, Copy)]
pub struct RankSet {
    words: [u64; 4],
}

impl RankSet {
    /// No number.
    pub fn new() -> RankSet {
        RankSet { words: [0; 4] }
    }

    /// The number is in the set, if it is below 256.
    pub fn insert(&mut self, rank: u32) {
        if let Some(word) = self.words.get_mut((rank / 64) as usize) {
            *word |= bit(rank);
        }
    }

    /// The number is not in the set.
    pub fn remove(&mut self, rank: u32) {
        if let Some(word) = self.words.get_mut((rank / 64) as usize) {
            *word &= !bit(rank);
        }
    }

    /// No number is in the set.
    pub fn clear(&mut self) {
        self.words = [0; 4];
    }

    /// Whether each number of the set is below this one.
    pub fn is_below(&self, rank: u32) -> bool {
        let [first, second, third, fourth] = self.words;
        let (word, above) = match rank / 64 {
            0 => (first, second | third | fourth),
            1 => (second, third | fourth),
            2 => (third, fourth),
            3 => (fourth, 0),
            _ => (0, 0),
        };
        above == 0 && word.wrapping_shr(rank % 64) == 0
    }

    /// The greatest, if there is one.
    pub fn greatest(&self) -> Option<u32> {
        let [first, second, third, fourth] = self.words;
        greatest_in(fourth, 192)
            .or(greatest_in(third, 128))
            .or(greatest_in(second, 64))
            .or(greatest_in(first, 0))
    }
}

fn bit(rank: u32) -> u64 {
    1u64.wrapping_shl(rank % 64)
}

/// The greatest number of a word, whose lowest bit stands for this number.
fn greatest_in(word: u64, lowest: u32) -> Option<u32> {
    if word == 0 {
        return None;
    }
    lowest.checked_add(word.ilog2())
}
