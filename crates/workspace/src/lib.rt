// Load and `replace_response` (document 01, Record 3): what the calls answer and leave, as definitions in specs/.
#![tactic(auto)]
