// Demand 3 applied to an image: the claim is not empty. There is no code here.
#![tactic(auto)]
