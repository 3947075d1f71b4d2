// Demand 3: one theorem about every list of calls and fresh images. There is no code here.
#![tactic(auto)]
