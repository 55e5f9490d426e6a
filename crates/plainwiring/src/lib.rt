// A group of servers that hold plain structs and make the calls of playout, wired by the protocol
// of docs/MAKERS.md, is the channel. The theorem stands in the contract of the number of the rules.
#![tactic(auto)]

ghost use Rattle.plainwiring.specs.Rules.{PlainRules};

// The number of the rules, as playout gives it.
pub fn rules() -> u32
    ensures { PlainRules result }
{
    playout::playout_rules()
}
