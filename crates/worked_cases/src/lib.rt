// The starred cases of document 01: a table in specs/, each case proved in proofs/, with four sheets whose numbers an outside script made.
#![tactic(auto)]
