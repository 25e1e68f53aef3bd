// Definitions and laws alone: blocks that lie in a list of doubles, and a loop that writes one run by run.
