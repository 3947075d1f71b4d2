// Laws of reading at a cursor (W-212). There is no code here.
#![tactic(auto)]
