// Numbers of 16 bits in bytes. Definitions only: see specs/.
#![tactic(auto)]
