// Lists and lent memory: definitions that every other crate cites, and their laws. No code.
#![tactic(auto)]
