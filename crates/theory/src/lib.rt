// Laws of lists, chains, free units, owners and contents, over any table of cells. There is no code here.
#![tactic(auto)]
