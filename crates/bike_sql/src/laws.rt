//! The crate's laws, each as the contract of a function with an empty body.

ghost use Rattle.bike_sql.specs.Laws.{SelectLaw, UnionLaw, ChangeLaw, InsertLaw, CreateLaw, IndexLaw};

/// A SELECT is the same query in any schema in which its tables are found by their names.
pub fn select_law()
    ensures { SelectLaw }
{}

/// SELECTs joined by UNION, UNION ALL, EXCEPT or INTERSECT are the same query there.
pub fn union_law()
    ensures { UnionLaw }
{}

/// An UPDATE or a DELETE makes the same change there.
pub fn change_law()
    ensures { ChangeLaw }
{}

/// An INSERT writes the same rows there.
pub fn insert_law()
    ensures { InsertLaw }
{}

/// A CREATE TABLE makes its table wherever the name is free.
pub fn create_law()
    ensures { CreateLaw }
{}

/// A CREATE INDEX makes its index of the table wherever the name is free.
pub fn index_law()
    ensures { IndexLaw }
{}
