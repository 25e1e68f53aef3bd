// The rules of a workspace are those of a freshly loaded one with the same loaded numbers: theorems in proofs/.
