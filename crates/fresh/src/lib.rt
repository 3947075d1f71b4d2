// What a fresh image holds, and that it is accepted: laws, and no code.
#![tactic(auto)]
