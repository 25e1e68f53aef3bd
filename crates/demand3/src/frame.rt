// What the calls leave of the blocks among the doubles (document 01, Records 3 to 5): theorems in proofs/.
