// Worked cases: tables that the check computes from the definitions and holds to numbers of the book and of document 01, or worked by
// hand. There is nothing to run: it is all in specs/.

#![tactic(auto)]
