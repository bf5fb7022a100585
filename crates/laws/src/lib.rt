// Laws on lists, tests and texts, for every floor above. There is no function here: see specs/.

#![tactic(auto)]
