// Laws of listings: a listing can be read back, and what it says can be trusted. There is no code here.
#![tactic(auto)]
