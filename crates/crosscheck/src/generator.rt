/// Made-up numbers by SplitMix64: the same seed gives the same numbers.
#[derive(Drop)]
pub struct Generator {
    state: u64,
}

impl Generator {
    pub(crate) fn new(seed: u64) -> Generator {
        Generator { state: seed }
    }

    /// The next number, any of 64 bits.
    pub(crate) fn number(&mut self) -> u64 {
        self.state = self.state.wrapping_add(0x9E37_79B9_7F4A_7C15);
        let first = (self.state ^ (self.state >> 30)).wrapping_mul(0xBF58_476D_1CE4_E5B9);
        let second = (first ^ (first >> 27)).wrapping_mul(0x94D0_49BB_1331_11EB);
        second ^ (second >> 31)
    }

    /// A number from 1 to `limit`; 0 if there is none.
    pub(crate) fn up_to(&mut self, limit: u32) -> u32 {
        if limit == 0 {
            return 0;
        }
        (self.number() % u64::from(limit)) as u32 + 1
    }

    /// Whether what happens so many times of sixteen happens.
    pub(crate) fn happens(&mut self, sixteenths: u32) -> bool {
        self.up_to(16) <= sixteenths
    }
}
