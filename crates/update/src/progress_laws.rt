// How a step moves a progress (document 01, Record 5): theorems in proofs/.
