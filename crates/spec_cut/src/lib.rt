// A section cut down to what is used: definitions, and that it answers as the old one.

#![tactic(auto)]
