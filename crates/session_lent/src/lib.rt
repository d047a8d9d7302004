// The premise `Bytes s` of the claims holds of every section that the code is lent: what the language says of a slice of bytes. No call
// needs these functions; the contract of `lent_bytes` is the statement.
#![tactic(auto)]

ghost use Rattle.std.specs.Prelude.{◌≡◌, length};
ghost use Rattle.spec_linux_btf.specs.Reading.{Bytes};

fn size(section: &[u8]) -> usize
    ensures { result ≡ length section.now }
{
    section.len()
}

pub fn lent_bytes(section: &[u8]) -> usize
    ensures { (result ≡ length section.now) × Bytes section.now }
{
    size(section)
}
