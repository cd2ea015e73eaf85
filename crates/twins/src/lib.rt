// Twins: two pages as one game, at pairs of screens with names and at places with real values.
#![tactic(auto)]
