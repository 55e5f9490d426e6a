// The numbers that a call is refused with: "From the input" and "From the state" of document 01.
#![tactic(auto)]

ghost use Rattle.std.specs.Prelude.{◌≡◌};
ghost use Rattle.refusal.specs.Answer.{number_of};

#[derive(Clone, Copy, Debug, PartialEq, Eq)]
pub enum Refusal {
    // A line's form.
    Form,
    // A number badly written or out of range.
    Number,
    // A timecode badly written or outside the day.
    Timecode,
    // A line out of its place, missing, or beyond the last.
    Place,
    // An identity already in the table.
    Taken,
    // Too many servers, or none.
    Servers,
    // A period below the number of servers.
    Period,
    // An identity not in the table, or twice the same.
    Identity,
    // A lent slice that is too short.
    Short,
    // A time before the present frame.
    Past,
    // A server that is down.
    Down,
    // A server that is up.
    Up,
    // A role that does not allow the verb.
    Role,
    // A link that is cut already, or whole already.
    Link,
    // An advance at the day's last frame.
    DayOver,
}

impl Refusal {
    // The number in document 01's lists.
    pub fn number(self) -> u8
        ensures { result ≡ number_of self }
    {
        match self {
            Refusal::Form => 1,
            Refusal::Number => 2,
            Refusal::Timecode => 3,
            Refusal::Place => 4,
            Refusal::Taken => 5,
            Refusal::Servers => 6,
            Refusal::Period => 7,
            Refusal::Identity => 8,
            Refusal::Short => 9,
            Refusal::Past => 11,
            Refusal::Down => 12,
            Refusal::Up => 13,
            Refusal::Role => 14,
            Refusal::Link => 15,
            Refusal::DayOver => 16,
        }
    }
}
