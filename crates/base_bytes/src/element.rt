// Elements of a slice at any place: past its end there is nothing.
ghost use Rattle.std.specs.Prelude.{◌≡◌, get_or, set};

// Element i, and `past` past the end.
pub fn peek<T: Copy>(l: &[T], i: usize, past: T) -> T
    ensures { result ≡ get_or l.now i past }
{
    l.get(i).copied().unwrap_or(past)
}

// Sets element i, if there is one. By index: with get_mut the proof of what the slice is afterwards did not close.
pub fn store<T: Copy>(l: &mut [T], i: usize, v: T)
    ensures { l.new ≡ set l.old i v }
{
    if i < l.len() {
        l[i] = v;
    }
}
