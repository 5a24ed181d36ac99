ghost use Rattle.std.specs.Prelude.{◌≡◌, ◌≤◌};
ghost use Rattle.messages.specs.Assignments.{chute_of, wave_of, assigned, read_result, stored_result};

use crate::refusals::Refusal;

// Where a sort group goes: a chute and a wave. The type has no invariant: whatever number is stored, it reads as a chute in range.
#[derive(Clone, Copy, PartialEq, Eq, Debug)]
pub struct Assignment {
    chute: u16,
    wave: u32,
}

impl Assignment {
    pub const LARGEST_CHUTE: u16 = 9_999;

    // Made only through this check.
    pub fn new(chute: u16, wave: u32) -> Result<Assignment, Refusal>
        ensures reads { read_result result ≡ assigned chute wave }
        ensures stored { stored_result result ≡ assigned chute wave }
    {
        if chute > Self::LARGEST_CHUTE {
            return Err(Refusal::ChuteTooLarge);
        }
        Ok(Assignment { chute, wave })
    }

    // In range, whatever number is stored.
    pub fn chute(self) -> u16
        ensures value { result ≡ chute_of self }
        ensures in_range { result ≤ 9999 }
    {
        self.chute.min(Self::LARGEST_CHUTE)
    }

    pub fn wave(self) -> u32
        ensures { result ≡ wave_of self }
    {
        self.wave
    }
}

#[cfg(test)]
mod tests {
    use super::*;
    use std::test::Fail;

    #[test]
    fn largest_chute(rt: HostRuntime) -> Result<(), Fail> {
        let a = Assignment::new(9_999, 4_294_967_295)?;
        assert_eq!(rt; a.chute(), 9_999);
        assert_eq!(rt; a.wave(), 4_294_967_295);
        Ok(())
    }

    #[test]
    fn chute_past_the_largest(rt: HostRuntime) {
        assert_eq!(rt; Assignment::new(10_000, 0), Err(Refusal::ChuteTooLarge));
        assert_eq!(rt; Refusal::ChuteTooLarge.number(), 5);
    }
}
