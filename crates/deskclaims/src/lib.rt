// What holds of queries that a desk writes and of replies that it reads; no code, only theorems.

#![tactic(auto)]
