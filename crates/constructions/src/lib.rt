// Two constructions of a block from a truth table, and what holds of every block that they make.
// Each theorem is a call of its own, also where both constructions have one like it: they speak of other wires.
#![tactic(auto)]

ghost use Rattle.constructions.specs.Theorems.{GhpcIsLawful, LowLatencyIsLawful, GhpcHasCounts, LowLatencyHasCounts, GhpcRecombines, LowLatencyRecombines, GhpcSettles, LowLatencySettles, GhpcSees, LowLatencySees, GhpcIsAccepted, LowLatencyIsAccepted, GhpcStandsByWire, LowLatencyStandsByWire};

// The GHPC block of every lawful table is lawful.
pub fn ghpc_lawful()
    ensures { GhpcIsLawful }
{}

// The GHPC_LL block of every lawful table is lawful.
pub fn low_latency_lawful()
    ensures { LowLatencyIsLawful }
{}

// How many wires and masks a GHPC block has, and its latency.
pub fn ghpc_counts()
    ensures { GhpcHasCounts }
{}

// How many wires and masks a GHPC_LL block has, and its latency.
pub fn low_latency_counts()
    ensures { LowLatencyHasCounts }
{}

// The outputs of a GHPC block recombine to those of its table.
pub fn ghpc_recombines()
    ensures { GhpcRecombines }
{}

// The outputs of a GHPC_LL block recombine to those of its table.
pub fn low_latency_recombines()
    ensures { LowLatencyRecombines }
{}

// What each wire of a GHPC block settles to.
pub fn ghpc_settles()
    ensures { GhpcSettles }
{}

// What each wire of a GHPC_LL block settles to.
pub fn low_latency_settles()
    ensures { LowLatencySettles }
{}

// What a probe on each wire of a GHPC block sees.
pub fn ghpc_sees()
    ensures { GhpcSees }
{}

// What a probe on each wire of a GHPC_LL block sees.
pub fn low_latency_sees()
    ensures { LowLatencySees }
{}

// The GHPC block of every lawful table is accepted.
pub fn ghpc_accepted()
    ensures { GhpcIsAccepted }
{}

// The GHPC_LL block of every lawful table that asks for at most 8 masks is accepted.
pub fn low_latency_accepted()
    ensures { LowLatencyIsAccepted }
{}

// Which cell stands on each wire of a GHPC block.
pub fn ghpc_by_wire()
    ensures { GhpcStandsByWire }
{}

// Which cell stands on each wire of a GHPC_LL block.
pub fn low_latency_by_wire()
    ensures { LowLatencyStandsByWire }
{}
