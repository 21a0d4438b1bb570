// Definitions and laws alone: what it means to ask a stream (specs/Ask.antt).
#![tactic(auto)]
