// Kuznyechik as the standard defines it. Its definitions are in specs; each function here carries a theorem about them.
#![tactic(auto)]

ghost use Rattle.kuznyechik_spec.specs.Field.{MultiplyIsProduct};
ghost use Rattle.kuznyechik_spec.specs.Laws.{InverseTransformations, LawfulWithEveryKey, RoundsByTables};

// The multiplication of bytes is that of polynomials, modulo x^8 + x^7 + x^6 + x + 1.
pub fn multiply_is_the_field_product()
    ensures { MultiplyIsProduct }
{}

// With every key, E and D make blocks of blocks, and undo each other.
pub fn lawful_with_every_key()
    ensures { LawfulWithEveryKey }
{}

// S, R and L and their inverses undo each other.
pub fn inverse_transformations()
    ensures { InverseTransformations }
{}

// The sum of sixteen entries of a table is the round, or the inverse of L.
pub fn rounds_by_tables()
    ensures { RoundsByTables }
{}
