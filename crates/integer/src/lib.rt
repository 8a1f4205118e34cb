// Integers of 32 and 64 bits: what is said of them, in specs/ and over the width, and products that wrap. Bits, sums, differences and negations are
// std's methods; proofs/ says that they are the definitions'.
#![tactic(auto)]

pub mod wrapping;
