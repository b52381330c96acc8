// What holds of every step, of show and of reset, whatever the state and the memories. There is nothing to run: it is all in specs/.

#![tactic(auto)]
