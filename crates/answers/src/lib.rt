// What a command answers, and the definitions and laws that the commands share. Whoever gives a
// command may call it.
#![tactic(auto)]

pub mod answer;
