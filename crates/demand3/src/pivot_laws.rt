// The pivots of an update's factors are roots of doubles that were not refused: theorems in proofs/.
