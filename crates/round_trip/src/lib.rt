// Tickets 1 and 2 together: a record written with a plane, run again on that plane as it was, gives the plane and the counts that the run gave; and what is promised at
// each edge of a record. No code: the words stand in specs/, the theorems in proofs/.
#![tactic(auto)]
