// A new response keeps a workspace in step with the book of Record 5: theorems in proofs/.
