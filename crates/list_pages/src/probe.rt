//! Where a list changes, looked for near a guess.
ghost use Rattle.std.specs.Prelude.{◌≡◌, ◌+◌, ◌≤◌, ◌<◌};

/// So many from a guess on a search looks ever farther from it; then it halves what is left.
pub const NEAR: usize = 32;

/// A search for where a list changes: from `low` up to `high`, and where it looks next.
#[derive(Clone, Copy)]
pub struct Probe {
    pub low: usize,
    pub high: usize,
    at: usize,
    step: usize,
}

impl Probe {
    /// Among the first `high`: near a guess first, where there is one.
    pub fn new(high: usize, guess: Option<usize>) -> Probe
        ensures low { result.low ≡ 0 }
        ensures high { result.high ≡ high }
    {
        Probe {
            low: 0,
            high,
            at: guess.unwrap_or(0),
            step: if guess.is_some() { 1 } else { NEAR },
        }
    }

    /// The place to look at.
    pub fn place(&self) -> usize
        requires { self.now.low < self.now.high }
        ensures low { self.now.low ≤ result }
        ensures high { result < self.now.high }
    {
        if self.step < NEAR {
            self.at.clamp(self.low, self.high - 1)
        } else {
            self.low + (self.high - self.low) / 2
        }
    }

    /// It changes behind the place.
    pub fn rise(&mut self, place: usize)
        requires { place < self.old.high }
        ensures low { self.new.low ≡ place + 1 }
        ensures high { self.new.high ≡ self.old.high }
    {
        self.low = place + 1;
        self.at = place.saturating_add(self.step);
        self.step = self.step.saturating_mul(2);
    }

    /// It changes at the place or before it.
    pub fn fall(&mut self, place: usize)
        ensures low { self.new.low ≡ self.old.low }
        ensures high { self.new.high ≡ place }
    {
        self.high = place;
        self.at = place.saturating_sub(self.step);
        self.step = self.step.saturating_mul(2);
    }
}
