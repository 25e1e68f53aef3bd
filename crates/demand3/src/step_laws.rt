// Steps in turn, the Rust's order and profile_deviance keep a workspace in step with the book of Record 5: theorems in proofs/.
