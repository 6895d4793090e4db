//! A source of bytes that counts up and can fail (ours).
ghost use Rattle.std.specs.Prelude.{⊤};

use slh_core::{RandomBytes, SourceFault};

/// A source that counts up from 00 and fails at one draw, when half of the bytes are written. Draws are counted from 1.
#[derive(Drop)]
pub struct Counting {
    next: u8,
    pub draws: u32,
    fails_at: u32,
    failures: u64,
}

impl Counting {
    /// The source before its first draw. It never fails if `fails_at` is 0.
    pub fn new(fails_at: u32) -> Counting {
        Counting {
            next: 0,
            draws: 0,
            fails_at,
            failures: 0,
        }
    }
}

impl RandomBytes for Counting {
    ghost draws = { λ _ _ _. ⊤ };

    ghost failures = { λ source. source.failures };

    fn draw(&mut self, out: &mut [u8]) -> Result<(), SourceFault> {
        self.draws = self.draws.saturating_add(1);
        let fails = self.draws == self.fails_at;
        let count = if fails { out.len() / 2 } else { out.len() };
        let mut next = self.next;
        for byte in &mut out[..count] {
            *byte = next;
            next = next.wrapping_add(1);
        }
        self.next = next;
        if fails {
            self.failures = self.failures.saturating_add(1);
            return Err(SourceFault);
        }
        Ok(())
    }
}
