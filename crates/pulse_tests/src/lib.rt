// The definitions of `pulse_laws`, computed on small images: theorems in specs/, and no code.
#![tactic(auto)]
