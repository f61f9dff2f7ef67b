// What the plane's statement promises further: demand 3 and kept samples at every edge of a run, how many samples are stored and changed at most,
// exactly when each refusal is given, that an empty list of tile starts is one tile, and a plane that is accepted and changed. No code: the words stand in specs/, the theorems in proofs/.
#![tactic(auto)]
