// The modes ctr and cbc and the MAC as the standard defines them. The definitions are in specs; each function here carries a
// theorem about them.
#![tactic(auto)]

ghost use Rattle.modes_spec.specs.Laws.{CbcOpensWhatItSealed, CounterBlocksApart, CtrUndoesItself, FilledInOneWay};

// What ctr enciphered, ctr deciphers; it keeps the length.
pub fn ctr_undoes_itself()
    ensures { CtrUndoesItself }
{}

// What cbc sealed, cbc opens; the filling comes off to the same bytes.
pub fn cbc_opens_what_it_sealed()
    ensures { CbcOpensWhatItSealed }
{}

// A filled text is filled in one way only.
pub fn filled_in_one_way()
    ensures { FilledInOneWay }
{}

// Counter blocks are equal only for equal START and equal number.
pub fn counter_blocks_apart()
    ensures { CounterBlocksApart }
{}
