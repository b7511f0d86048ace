// The round of document 02, §3, that empties the store of outstanding packets: a theorem over the definitions of the other crates (specs/Round.antt, proofs/Round.antt).
#![tactic(auto)]
