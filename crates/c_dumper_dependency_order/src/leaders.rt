// The leaders of the ids that ordering lists: one for each id, beside the work, in a slice that is lent (fixed memory), and empty without
// a list. A struct of them would be no plainer: after a refusal nothing is told of them, so no invariant of it would hold.
ghost use Rattle.std.specs.Prelude.{◌≡◌};
ghost use Rattle.c_dumper_dependency_order.specs.leaders.Leaders.{leader_words, leader_on_way, inside_of, has_leader, note_in, leader_in};

use base_bytes::element::{peek, store};

// The leader of an id, and the request that noted it.
#[derive(Clone, Copy)]
pub struct Leader {
    pub turn: u32,
    pub lead: u32,
}

impl Leader {
    // None has noted this: requests with a list have the turns from 1 on. Fixed memory needs it: a leader is two words for each id, and an
    // Option would be a third. (Of a NonZeroU32 it would not, but a caller could no longer ask for turn 0.)
    pub const NONE: Leader = Leader { turn: 0, lead: 0 };
}

// The innermost composite or typedef that is being ordered, and the leader of that one; both are the requested id where
// there is none. `turn` tells the requests of a call apart.
#[derive(Clone, Copy)]
pub struct Way {
    pub inner: u32,
    pub lead: u32,
    pub turn: u32,
}

impl Way {
    // What leads to an id on this way.
    pub fn led_by(self, id: u32) -> u32
        ensures { result ≡ leader_on_way self id }
    {
        if self.inner == id {
            self.lead
        } else {
            self.inner
        }
    }

    // The way within that id.
    pub fn inside(self, id: u32) -> Way
        ensures { result ≡ inside_of self id }
    {
        Way {
            inner: id,
            lead: self.led_by(id),
            turn: self.turn,
        }
    }
}

fn has_leader(leaders: &[Leader], turn: u32, id: u32) -> bool
    ensures { result ≡ has_leader turn (leader_words leaders.now) id }
{
    peek(leaders, id as usize, Leader::NONE).turn == turn
}

// Notes the leader of an id, unless this request has noted one.
pub fn note(leaders: &mut [Leader], v: Way, id: u32)
    ensures { leader_words leaders.new ≡ note_in v (leader_words leaders.old) id }
{
    if has_leader(leaders, v.turn, id) {
        return;
    }
    store(
        leaders,
        id as usize,
        Leader {
            turn: v.turn,
            lead: v.led_by(id),
        },
    );
}

// The leader of an id in the request for `req`.
pub fn leader_of(leaders: &[Leader], req: u32, turn: u32, id: u32) -> u32
    ensures { result ≡ leader_in req turn (leader_words leaders.now) id }
{
    if has_leader(leaders, turn, id) {
        return peek(leaders, id as usize, Leader::NONE).lead;
    }
    req
}
