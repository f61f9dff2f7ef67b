// What the statement of a call on filled rows promises further: that any cutting gives the plane and the summed counts of the whole run, whatever the rows hold that are not filled yet,
// that rows called final are not changed again, exactly when each refusal is given and what it leaves, and calls computed from the rules. No code: the words stand in specs/, the theorems in proofs/.
#![tactic(auto)]
