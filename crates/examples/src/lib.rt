// Worked examples of the definitions, as theorems: the contract of each function here is a list of them.
#![tactic(auto)]

ghost use Rattle.examples.specs.KuznyechikValues.{KuznyechikExamples};
ghost use Rattle.examples.specs.Listings.{ListingExamples};
ghost use Rattle.examples.specs.MagmaValues.{MagmaExamples};
ghost use Rattle.examples.specs.ModeValues.{KuznyechikModeExamples, MagmaModeExamples};
ghost use Rattle.examples.specs.Sheets.{SheetExamples};
ghost use Rattle.examples.specs.TagTexts.{TagTextsAndSubkeys};

// Order sheets: lengths and blocks at their limits.
pub fn sheet_examples_hold()
    ensures { SheetExamples }
{}

// What `list` prints.
pub fn listing_examples_hold()
    ensures { ListingExamples }
{}

// Magma: a substitution, t, g, and a block enciphered and deciphered.
pub fn magma_examples_hold()
    ensures { MagmaExamples }
{}

// Kuznyechik: S, R, L, the first constant, the round keys of a key, and a block enciphered and deciphered.
pub fn kuznyechik_examples_hold()
    ensures { KuznyechikExamples }
{}

// ctr and the MAC with its subkeys, over Kuznyechik.
pub fn kuznyechik_mode_examples_hold()
    ensures { KuznyechikModeExamples }
{}

// ctr and the MAC with its subkeys, over Magma.
pub fn magma_mode_examples_hold()
    ensures { MagmaModeExamples }
{}

// Tags: a text of 64 bytes takes K1, one of 65 takes K2.
pub fn tag_examples_hold()
    ensures { TagTextsAndSubkeys }
{}
