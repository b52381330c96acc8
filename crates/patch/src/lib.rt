// What a patcher may lean on: pieces of code that may stand for each other. There is nothing to run: it is all in specs/.

#![tactic(auto)]
