// What holds where requests come between steps. There is nothing to run: it is all in specs/.

#![tactic(auto)]
