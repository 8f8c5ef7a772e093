//! No false alarm.
ghost use Rattle.observed_laws.specs.Reads.{LawObserved};

/// Of any run of a setup that a script can declare, short at its end: let each topic at each cluster be read, or not, its cursors after so
/// many of the steps and its entries after so many, no cursor later than any entries; let the logs say at least what is settled by the end,
/// and of receipts only such as a client was sent by then. Then nothing is found against what was read.
pub fn law_observed()
    ensures { LawObserved }
{}
