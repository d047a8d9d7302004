// The order list, emptied after a request.
ghost use Rattle.std.specs.Prelude.{◌≡◌};
ghost use Rattle.spec_session.specs.emission.Slices.{emptied};

use c_dumper_dependency_order::order_state::set_listed;

// Empties the first n places of the order list.
pub fn clear_list(work: &mut [u8], n: u32)
    ensures { work.new ≡ emptied n work.old }
{
    for k in 0..n {
        set_listed(work, k, 0);
    }
}
