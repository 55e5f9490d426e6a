// The period of a channel, and the limits that it sets.
#![tactic(auto)]

ghost use Rattle.std.specs.Prelude.{◌≡◌};
ghost use Rattle.periods.specs.Period.{of_period, take_period, shortest, beat_limit, silence_limit, prospect_limit};

use refusal::Refusal;

// The period of a channel, in frames. `Period::of` and `Period::shortest` make it; no other crate
// can by itself.
#[derive(Clone, Copy)]
pub struct Period {
    frames: u8,
}

impl Period {
    // The shortest and the longest period.
    pub const MIN: u32 = 2;

    pub const MAX: u32 = 250;

    pub fn of(frames: u32) -> Result<Period, Refusal>
        ensures { of_period result ≡ take_period frames }
    {
        if frames < Period::MIN {
            return Err(Refusal::Number);
        }
        if frames > Period::MAX {
            return Err(Refusal::Number);
        }
        Ok(Period {
            frames: frames as u8,
        })
    }

    // The shortest period there is.
    pub fn shortest() -> Period
        ensures { result ≡ shortest }
    {
        Period {
            frames: Period::MIN as u8,
        }
    }

    // The beat age at which a plain beat is sent.
    pub fn beat_limit(self) -> u32
        ensures { result ≡ beat_limit self }
    {
        self.frames as u32
    }

    // The silence age at which a backup suspects.
    pub fn silence_limit(self) -> u32
        ensures { result ≡ silence_limit self }
    {
        2 * (self.frames as u32)
    }

    // The prospect age at which a prospect becomes primary.
    pub fn prospect_limit(self) -> u32
        ensures { result ≡ prospect_limit self }
    {
        2 * (self.frames as u32)
    }
}
