// No code: the claims on images and cards, and worked cases (specs/), with their theorems and the laws of encoding and decoding (proofs/).
#![tactic(auto)]
