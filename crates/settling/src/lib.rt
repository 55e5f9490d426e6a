// A channel settles: demand 3, of the definitions of the group. The theorem stands in the contract
// of the figure.
#![tactic(auto)]

ghost use Rattle.settling.specs.Figure.{SettlingFrames};

use periods::Period;

// The frames within which a channel with this period comes to one primary, and ever after the same,
// where no link is cut, some server is in backup, prospect or primary, and only advances are
// accepted: 4 periods and 2 frames.
pub fn settling_frames(period: Period) -> u32
    ensures { SettlingFrames period.frames result }
{
    period.silence_limit() + period.prospect_limit() + 2
}
