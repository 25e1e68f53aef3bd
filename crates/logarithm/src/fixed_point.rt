// The natural logarithm of a double above 0 in whole units: its definition (specs/fixed_point/Units.antt), what it is to be near the exact one (specs/fixed_point/Near.antt)
// and the error law. There is no function here.
