// Laws of the mathematics, each on the contract of a function that does nothing else.
ghost use Rattle.model.specs.Agreement.{HistoryAgrees, StackAgrees};
ghost use Rattle.model.specs.Facts.{FactsSumUpRuns};
ghost use Rattle.model.specs.Links.{LinkLaws};
ghost use Rattle.model.specs.Runs.{FollowsFromTrace};
ghost use Rattle.model.specs.Searches.{SearchLaws};
ghost use Rattle.model.specs.Watches.{WatchLaws};
ghost use Rattle.model.specs.Worked.{Worked};

// The worked cases.
pub fn worked_cases()
    ensures { Worked }
{}

// A watch that is bad stays so; an undefined cell of a table leads to a bad state, and the wall is bad exactly if both its marks were met.
pub fn watches_stay_bad()
    ensures { WatchLaws }
{}

// One list of nodes is the trace of at most one run.
pub fn runs_follow_from_traces()
    ensures { FollowsFromTrace }
{}

// Under the history rule the traces of runs are those of history-based access control.
pub fn history_agrees()
    ensures { HistoryAgrees }
{}

// Under the rule of stack inspection the traces of runs are those of stack inspection.
pub fn stack_agrees()
    ensures { StackAgrees }
{}

// Facts sum up runs, at any length and call depth.
pub fn facts_sum_up_runs()
    ensures { FactsSumUpRuns }
{}

// An opening is sound, digging keeps that, and a sound one tells which facts are yielded and whether a run goes bad.
pub fn tables_tell_facts()
    ensures { SearchLaws }
{}

// A link adds an edge to those that count, and with more edges there are more runs and more facts.
pub fn links_add_edges()
    ensures { LinkLaws }
{}
