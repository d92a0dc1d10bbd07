//! Lemmas on the views of a table's seats, for rules over `atomic_table`: sums over all views, and
//! facts of each view, after one view changed or one was added.
#![tactic(auto)]
