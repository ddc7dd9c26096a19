// No code: regions and reach of a graph as definitions, what is proved of them, and laws of walks for the crates that walk (`graph`, `driven`).
#![tactic(auto)]
