// The number that the next holder of a name gets: how many there are then, with the numbers passed over that are listed at the
// class of its name.
ghost use Rattle.std.specs.Prelude.{◌≡◌, ◌+◌};
ghost use Rattle.spec_type_table.specs.Cells.{class_p, count_p, count_raised};
ghost use Rattle.spec_type_table.specs.Numbers.{below, capped, number_over, taken_at, number_at};
ghost use Rattle.btf_open_names.specs.numbers.Lists.{one_if};

use btf_type_table::cell;
use btf_type_table::cell::get_count;

// One more, if the number t is at most n.
fn add_if(c: u32, t: u32, n: u32) -> u32
    ensures { result ≡ one_if c t n }
{
    if n < t { c } else { c.saturating_add(1) }
}

// The list of taken numbers of a class, in the work.
#[derive(Clone, Copy)]
struct Taken<'a> {
    work: &'a [u8],
    types: u32,
    class: u32,
}

impl Taken<'_> {
    // How many of the numbers are at most n. The list rises; what does not was not left by opening, and ends it.
    fn count_below(&self, n: u32) -> u32
        ensures { result ≡ below (taken_at self.now.types self.now.work.now self.now.class) n }
    {
        let mut c: u32 = 0;
        let mut last: u32 = 0;
        let mut x = cell::FIRST_TAKER.get(self.work, self.types, self.class);
        // A `while` that ends because the links rise. (`successors` is endless: with `take` it would count besides, only to end.)
        while last < x {
            c = add_if(c, cell::TAKEN_NUMBER.get(self.work, self.types, x), n);
            last = x;
            x = cell::NEXT_TAKER.get(self.work, self.types, x);
        }
        c
    }

    // k, and one more for each number that is at most n.
    fn step(&self, k: u32, n: u32) -> u32
        ensures { result ≡ capped (k + below (taken_at self.now.types self.now.work.now self.now.class) n) }
    {
        k.saturating_add(self.count_below(n))
    }

    // The number of the k-th holder. Each turn passes over at least one more number.
    fn number_over(&self, k: u32) -> u32
        ensures { result ≡ number_over (taken_at self.now.types self.now.work.now self.now.class) k }
    {
        let mut n = k;
        let mut m = self.step(k, k);
        // A `while`: until a number is reached that no other takes. (`successors` with `find` is no plainer: it asks `step` twice of each
        // number, and ends in an `unwrap` of what is never None.)
        while n < m {
            n = m;
            m = self.step(k, n);
        }
        n
    }
}

// One more holder of h's name: the number that it gets.
pub fn get_number(work: &mut [u8], types: u32, h: u32) -> u32
    ensures { (result ≡ number_at types work.old h)
        × (work.new ≡ count_raised (class_p types) (count_p types) work.old h) }
{
    let class = cell::NAME_CLASS.get(work, types, h);
    let k = get_count(work, types, h);
    let taken = Taken { work, types, class };
    taken.number_over(k)
}
