//! Which replaced bytes are tried.
use rand_core::utils::NextWord;
use rand_pcg::Pcg32;

/// So many tenths, at random: the numbers are those of PCG (O'Neill 2014) with 64 bits of state and 32 of output.
#[derive(Drop)]
pub struct Choice {
    numbers: Pcg32,
    tenths: u32,
}

impl Choice {
    /// By this seed; none where there aren't 1 to 10 tenths.
    pub fn new(seed: u64, tenths: u32) -> Option<Choice> {
        if tenths < 1 || tenths > 10 {
            return None;
        }
        Some(Choice {
            numbers: Pcg32::new(seed, 0),
            tenths,
        })
    }

    /// Whether the next is tried.
    pub fn takes(&mut self) -> bool {
        self.numbers.next_word() % 10 < self.tenths
    }
}
