// No code: 01's worked numbers that are to be proved, one table of rows and one proof, in specs/.
#![tactic(auto)]
