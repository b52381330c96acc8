// What the feed calculation needs: multiplying, dividing, and a pointer that goes round in a table.
#![tactic(auto)]

pub mod cycle;
pub mod scale;
