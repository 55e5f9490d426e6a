// A sheet judged against a day, both in pieces: what is known, and its laws. It has no code.
#![tactic(auto)]
