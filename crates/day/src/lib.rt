// The day format and the sheet. So far its definitions only, in specs/.
#![tactic(auto)]
