// Laws for grooming a block of readings as rows, one below the other: a word for each column, in which each row has a bit. For every width. No function.
#![tactic(auto)]
