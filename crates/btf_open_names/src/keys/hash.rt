// Names by content: whether two are the same, and a hash.
ghost use Rattle.std.specs.Prelude.{◌≡◌};
ghost use Rattle.spec_type_table.specs.Names.{up_to_zero};
ghost use Rattle.btf_open_names.specs.name_classes.Same.{same_list};
ghost use Rattle.btf_open_names.specs.name_classes.Table.{step_of, hash_from};

// The factor of the FNV hash of 32 bits.
const FACTOR: u32 = 16777619;

// Whether the names at the front of two slices are the same.
pub fn same_name(x: &[u8], y: &[u8]) -> bool
    ensures { result ≡ same_list (up_to_zero x.now) (up_to_zero y.now) }
{
    x.iter()
        .take_while(|a| **a != 0)
        .eq(y.iter().take_while(|b| **b != 0))
}

// One byte more into a hash.
pub fn hash_step(acc: u32, x: u8) -> u32
    ensures { result ≡ step_of acc x }
{
    acc.wrapping_mul(FACTOR).wrapping_add(x as u32)
}

// The hash of the name at the front of a slice, after `start`.
pub fn hash_name(name: &[u8], start: u32) -> u32
    ensures { result ≡ hash_from start (up_to_zero name.now) }
{
    name.iter()
        .take_while(|x| **x != 0)
        .fold(start, |acc, x| hash_step(acc, *x))
}
