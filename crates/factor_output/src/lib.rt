// What the program `factor` prints (document 01, "Worked sheets"), as definitions in specs/.
#![tactic(auto)]
