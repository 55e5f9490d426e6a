// A group of servers that elects a primary, frame by frame, and settles: definitions and a theorem
// over traces. It has no code.
#![tactic(auto)]
