//! Dice that always fall alike.

/// Dice.
#[derive(Clone, Copy, Debug)]
pub struct Dice {
    state: u64,
}

impl Dice {
    /// Dice that were not thrown yet.
    pub fn new() -> Dice {
        Dice { state: 7 }
    }

    /// A number below this one; 0 where it is 0.
    pub fn below(&mut self, count: u64) -> u64 {
        let mixed = self.state.wrapping_mul(6_364_136_223_846_793_005);
        self.state = mixed.wrapping_add(1_442_695_040_888_963_407);
        if count == 0 {
            0
        } else {
            (self.state / 8_589_934_592) % count
        }
    }
}
