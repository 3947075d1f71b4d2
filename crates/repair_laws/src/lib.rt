// Laws of repairs (W-213). There is no code here.
#![tactic(auto)]
