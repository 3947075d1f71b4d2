// All of the format as definitions, in specs/. There is no code here.
#![tactic(auto)]
