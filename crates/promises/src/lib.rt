// What the library owes, as theorems over the definitions that the contracts cite. No code.
#![tactic(auto)]
