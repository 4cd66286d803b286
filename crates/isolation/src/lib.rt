// What holds of every circuit: lemmas in proofs/, and the theorems that other crates rest on.
#![tactic(auto)]

ghost use Rattle.isolation.specs.Theorems.{EquationsFixValues, ProbeDeterminesWire, CleanWeighsEqually, SubsetIsClean, WorkedOutIsClean, ShiftKeepsSum, RestoredIsClean, CleanHoldsNoOtherShare, CleanHidesPlainInputs};

// A list that meets the equation of each driver is what the wires carry.
pub fn equations_fix_values<V>()
    ensures { EquationsFixValues V }
{}

// What a probe sees determines the value on its wire.
pub fn probe_determines_wire()
    ensures { ProbeDeterminesWire }
{}

// Patterns that arise equally often weigh equally.
pub fn clean_weighs_equally()
    ensures { CleanWeighsEqually }
{}

// A subset of a clean set is clean.
pub fn subset_is_clean()
    ensures { SubsetIsClean }
{}

// What is worked out from a clean pattern is clean.
pub fn worked_out_is_clean()
    ensures { WorkedOutIsClean }
{}

// A shift of the masks changes no sum over all their settings.
pub fn shift_keeps_sum()
    ensures { ShiftKeepsSum }
{}

// A set whose pattern a shift of the masks restores is clean.
pub fn restored_is_clean()
    ensures { RestoredIsClean }
{}

// A set that is clean in one domain holds no input share of the other.
pub fn clean_holds_no_other_share()
    ensures { CleanHoldsNoOtherShare }
{}

// A set that is clean in either domain tells no plain input from another.
pub fn clean_hides_plain_inputs()
    ensures { CleanHidesPlainInputs }
{}
