// How a workspace stands to the book of Record 5, and that begin and a ready step keep it so: theorems in proofs/.
