// The laws of order sheets, each carried by the contract of a function that does nothing else.
#![tactic(auto)]

ghost use Rattle.std.specs.Prelude.{ℕ, List};
ghost use Rattle.sheet_format.specs.Orders.{map_ok, order_of, summary};
ghost use Rattle.sheet_laws.specs.CheckLaw.{CheckLaw};
ghost use Rattle.sheet_laws.specs.Grammar.{LinesMakeSheet, NoFormFits, ReadsWritten};
ghost use Rattle.sheet_laws.specs.Meets.{OrdersIfNoneMeets, RefusedByFirst};
ghost use Rattle.sheet_laws.specs.Passes.{OrdersIfPasses};

// A sheet reads as a list of forms exactly where it is written from them; and what its lines are where it is not.
pub fn reading_is_the_grammar()
    ensures written { ReadsWritten }
    ensures lines { LinesMakeSheet }
    ensures unformed { NoFormFits }
{}

// A sheet is refused for the first fault that meets it, and for no other reason.
pub fn refused_by_the_first_fault()
    ensures refused { RefusedByFirst }
    ensures orders { OrdersIfNoneMeets }
{}

// A sheet orders something exactly where it passes.
pub fn passing_is_ordering()
    ensures { OrdersIfPasses }
{}

// What a sheet orders, or its fault, is the answer that the law asks for.
pub fn orders_keep_the_law()
    ensures { (sheet : List ℕ) → CheckLaw sheet (map_ok summary (order_of sheet)) }
{}
