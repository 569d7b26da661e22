// A page cut off, and the view of the finished tags: the statements are in specs/, their proofs in proofs/. There is no code here.

#![tactic(auto)]
