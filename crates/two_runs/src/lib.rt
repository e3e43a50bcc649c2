// Two runs that differ in values put to one register: definitions and theorems, no code.
#![tactic(auto)]
