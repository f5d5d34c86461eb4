// Laws about slices that are filled in order, and about a part that is lent on and comes back. No function.
#![tactic(auto)]
