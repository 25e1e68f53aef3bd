// A sheet as text (document 01, Record 1), in specs/; and in proofs/ that each sheet in form is read out of its text again, and that nothing else is read.
