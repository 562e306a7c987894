// The worked days M1 to M10, stated together and proved of the definitions: see specs/.
#![tactic(auto)]
