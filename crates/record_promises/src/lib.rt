// What a recorded plane's answer means: the record's edges, the plane beside it, and when each number is given. It holds laws alone.
#![tactic(auto)]
