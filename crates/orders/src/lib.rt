// Orders of a plane's edges: another order that leaves document 01's plane, each edge's number in document 01's order, and how many edges
// there are. No code: the definitions stand in specs/, the laws in proofs/.
#![tactic(auto)]
