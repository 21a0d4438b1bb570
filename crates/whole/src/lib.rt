// Definitions and theorems alone, of what a user does with several calls: peer tables and RIB bodies there and back, what a cursor
// hands out, records that were written and streams of them, and what a whole walk promises of the calls on lent places.
#![tactic(auto)]
