// Definitions and theorems alone: the exact logarithm of a double, between fractions.
