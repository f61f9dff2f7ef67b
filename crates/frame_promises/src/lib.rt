// What a frame's answer means: when each number is given, that an accepted frame's planes are accepted planes, what empty lists of tile starts give, that kept cells and their marks stay as lent and what no kept cells give, and how many samples are stored and changed at most. It holds laws alone.
#![tactic(auto)]
