// The solves of Record 7, forward and backward, as laws over the blocks of a vector: theorems in proofs/.
