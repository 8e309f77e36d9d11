// Where the decode that names no mode takes a text, no value and no sum lost a bit: a theorem over its definitions. No code.
#![tactic(auto)]
