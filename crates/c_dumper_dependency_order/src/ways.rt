// Small decisions of ordering, with no call of it: how it comes to a type, which ways are weak, which composites are passed over, and
// what one more call comes to under a ceiling.
ghost use Rattle.std.specs.Prelude.{◌≡◌, not, ◌&&◌, true, false};
ghost use Rattle.c_dumper_dependency_order.specs.leaders.Leaders.{inside_of};
ghost use Rattle.c_dumper_dependency_order.specs.ways.Idle.{counted};

use crate::leaders::Way;
use base_bytes::refusal::Refusal;
use spec_type_table::TypeTable;

// How ordering comes to a type: whether behind a pointer, how deep it may still go, and what is being ordered around it.
#[derive(Clone, Copy)]
pub struct Step {
    pub has_ptr: bool,
    pub left: u32,
    pub way: Way,
}

impl Step {
    // To what is behind a pointer: a weak way.
    #[inline]
    pub fn weak(self) -> Step
        ensures { result ≡ record { has_ptr = true; left = self.left; way = self.way } }
    {
        Step {
            has_ptr: true,
            ..self
        }
    }

    // To what a typedef names.
    #[inline]
    pub fn inside(self, id: u32) -> Step
        ensures { result ≡ record { has_ptr = self.has_ptr; left = self.left; way = inside_of self.way id } }
    {
        Step {
            way: self.way.inside(id),
            ..self
        }
    }

    // To the members of a composite: a strong way.
    #[inline]
    pub fn to_members(self, id: u32) -> Step
        ensures { result ≡ record { has_ptr = false; left = self.left; way = inside_of self.way id } }
    {
        Step {
            has_ptr: false,
            ..self.inside(id)
        }
    }
}

// The way past an array is weak if the way to it was; strong arrays forget that.
pub fn is_weak_past(b: TypeTable, has_ptr: bool) -> bool
    ensures { result ≡ (not b.strong_arrays && has_ptr) }
{
    !b.strong_arrays && has_ptr
}

// A composite is passed over if it is named and behind a pointer.
pub fn is_passed(named: bool, has_ptr: bool) -> bool
    ensures { result ≡ (has_ptr && named) }
{
    has_ptr && named
}

// The calls made after one more, which only a ceiling counts; it refuses the one that would pass it.
#[tactic(auto, unfolding(crate::specs::ways::Idle::idle_in, crate::specs::ways::Idle::counted))]
pub fn count(ceiling: Option<u64>, made: u64) -> Result<u64, Refusal>
    ensures { result ≡ counted ceiling made }
{
    let Some(calls) = ceiling else {
        return Ok(made);
    };
    if calls <= made {
        return Err(Refusal::CeilingPassed);
    }
    Ok(made + 1)
}
