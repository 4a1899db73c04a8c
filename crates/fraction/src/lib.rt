// Fractions are only spoken of, never computed: specs/Fraction.antt says what one is, proofs/ has the laws.
#![tactic(auto)]
