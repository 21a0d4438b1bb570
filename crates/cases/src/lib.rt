// Definitions and one theorem alone: the worked cases of the definitions below (specs/Cases.antt).
#![tactic(auto)]
