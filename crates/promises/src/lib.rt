// The three demands, and what the change requests add, as theorems over the definitions that the public calls'
// contracts cite. There is no code here: the page is proofs/Promises.antt.
#![tactic(auto)]
