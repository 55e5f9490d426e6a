// The worked days of document 01: one table, and that each of its rows holds.
#![tactic(auto)]

ghost use Rattle.days.specs.Rows.{Worked};

// The rows of D1 to D11; D7, D8 and D9 have two each.
pub const ROWS: usize = 14;

// How many rows the table has. Each of them holds.
pub fn worked_days() -> usize
    ensures { Worked result }
{
    ROWS
}
