// What mirroring a ring, and exchanging the two that are lent, leave as it was: definitions and theorems about calls of other crates, and no code.
#![tactic(auto)]
