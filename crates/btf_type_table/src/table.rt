// A type table and the section that it was opened on.
use spec_type_table::TypeTable;

// What opening found, and the bytes that were opened: they are read together. (Contracts name both, as the definitions take them: a model
// would be one more definition to believe. The work, from which the rules' table is read too, is no field: it is lent `&mut` along the
// walks, so a value of all three would be made anew at each call from them, and its contract would name its three parts.)
#[derive(Clone, Copy)]
pub struct Table<'a> {
    pub head: TypeTable,
    pub section: &'a [u8],
}
