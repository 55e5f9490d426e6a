// Channels that calls reach: what holds of each of them, of the frames that follow and of its
// links, and some lists of calls worked out. It has no code.
#![tactic(auto)]
