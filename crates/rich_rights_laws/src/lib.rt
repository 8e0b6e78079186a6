//! Laws on rights: how counts add up, whatever is counted; and rights in values and programs, computed.
#![tactic(auto)]

ghost use Rattle.rich_rights_laws.specs.Sums.{CountsOfValues, CountsOfStores};
ghost use Rattle.rich_rights_laws.specs.Rows.{ValuesCount, SwappedCount, SplitCount};

/// A law: counts over lists of values and over both stores add up, where lists are joined, turned round or changed in a place, and
/// where a cell is made, changed or taken out.
pub fn counts_add_up()
    ensures values { CountsOfValues }
    ensures stores { CountsOfStores }
{}

/// Rows: the rights in a value, and those in configurations of programs that swap cells within a cell and take a reference apart.
pub fn rights_are_counted()
    ensures values { ValuesCount }
    ensures swapped { SwappedCount }
    ensures split { SplitCount }
{}
