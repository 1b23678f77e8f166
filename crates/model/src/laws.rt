//! The laws of lawful records. Each function does nothing: its contract is a theorem about every list of records.

ghost use Rattle.model.specs.HoldBack.{HoldBackRule};
ghost use Rattle.model.specs.Merge.{MergeRule, MergeRuleByPlaces, AccountsByPlaces};
ghost use Rattle.model.specs.Rank.{RankRules};
ghost use Rattle.model.specs.Renamed.{RenamingRule};
ghost use Rattle.model.specs.Table.{Table};
ghost use Rattle.model.specs.Tells.{OutcomeTells};
ghost use Rattle.model.specs.Upto.{UptoRules};

/// Each trace of the table has its outcome.
pub fn table_of_traces()
    ensures { Table }
{}

/// What the outcome of a list tells of its records.
pub fn outcome_tells()
    ensures { OutcomeTells }
{}

/// Two orders of the same records in which every thread gives the same account give each record the same verdict.
pub fn merge_rule()
    ensures by_accounts { MergeRule }
    ensures by_places { MergeRuleByPlaces }
    ensures both_forms { AccountsByPlaces }
{}

/// Holding back a thread's records leaves every thread's account as it was.
pub fn holding_back_keeps_accounts()
    ensures { HoldBackRule }
{}

/// Verdicts do not go by the names of threads and addresses.
pub fn renaming_keeps_verdicts()
    ensures { RenamingRule }
{}

/// One event of a thread precedes another exactly if its rank is smaller, and a judge may go by ranks alone.
pub fn ranks_order_events()
    ensures { RankRules }
{}

/// Lists alike up to renaming give the same verdicts, and chains of such lists do.
pub fn alike_up_to_renaming()
    ensures { UptoRules }
{}
