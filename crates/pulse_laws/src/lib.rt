// What a pulse stream is, what its three calls answer and leave, and what holds of them (W-208). There is no code here.
#![tactic(auto)]
