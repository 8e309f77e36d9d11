// What is written reads back, as theorems over the definitions of the decoder and the writer. No code.
#![tactic(auto)]
