//! What is claimed of a text holds whatever the order in which its processes run.
#![tactic(auto)]

ghost use Rattle.every_order.specs.Truth.{TrueInEveryOrder};

/// Claims that are true of the settled runs of a text's design are true of its runs in every order of processes.
pub fn law_true_in_every_order()
    ensures { TrueInEveryOrder }
{}
