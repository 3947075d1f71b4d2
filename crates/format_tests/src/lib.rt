// The definitions of `format`, computed on small images: theorems in specs/, and no code.
#![tactic(auto)]
