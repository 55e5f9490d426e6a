// Definitions and laws on choices, lists, loops and writes into a lent slice. It has no code.
#![tactic(auto)]
