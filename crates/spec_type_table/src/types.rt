// Records of the type area, as the Linux documentation lays them out. A record is named by its place in the section.

// A section that was opened: the settings chosen then, the order of its bytes, the count of types, and where its string area
// starts. (Sixteen bytes, since it is handed on with every call.)
#[derive(Clone, Copy)]
pub struct TypeTable {
    pub ptr_sz: u32,
    pub union_as_struct: bool,
    pub big_endian: bool,
    pub strong_arrays: bool,
    pub placing: bool,
    pub types: u32,
    pub strs: u32,
}

// The entries that follow the record at a place: how many there are.
#[derive(Clone, Copy)]
pub struct Entries {
    pub at: u32,
    pub vlen: u32,
}

#[derive(Clone, Copy)]
pub struct BtfMember {
    pub name_off: u32,
    pub type_id: u32,
    pub bit_offset: u32,
    pub bit_size: u32,
}

// struct btf_type and the place where it stands; type_id is the size of kinds that have one. Void is the default, all zeros.
#[derive(Clone, Copy, Default)]
pub struct BtfType {
    pub at: u32,
    pub name_off: u32,
    pub info: u32,
    pub type_id: u32,
}
