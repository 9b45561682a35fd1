// Laws over every order of steps.

ghost use Rattle.event_order.specs.Laws.{EveryOrderSettles, EveryCycleEnds, EveryOrderEnds, EveryNumberNamesOne, EveryVerdictAgrees, EveryStimulusRuns};

/// Every run of the machine, in any order of steps, is a settled run, and every settled run is like one of the machine.
pub fn law_every_order_settles()
    ensures { EveryOrderSettles }
{}

/// From every state that has a flag for each process some steps lead to a quiet one.
pub fn law_every_cycle_ends()
    ensures { EveryCycleEnds }
{}

/// From such a state no list of steps is longer than the work that is left, so none goes on for ever.
pub fn law_every_order_ends()
    ensures { EveryOrderEnds }
{}

/// From such a state each order number names one list of steps to a quiet state, and no other.
pub fn law_every_number_names_one()
    ensures { EveryNumberNamesOne }
{}

/// What is said of a point over settled runs is said of it over the machine's.
pub fn law_every_verdict_agrees()
    ensures { EveryVerdictAgrees }
{}

/// Each stimulus that fits has a run of the machine.
pub fn law_every_stimulus_runs()
    ensures { EveryStimulusRuns }
{}
