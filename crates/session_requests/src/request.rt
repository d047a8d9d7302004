// One request of a call, after those before it: plain, under a ceiling, or with an entry for each line. (Ready is asked by each that lends
// the leaders, of which ordering tells nothing after a refusal: so an owned struct of leaders and turn would have no invariant then. Fits
// speaks of the text and the list, which are lent `&mut` too.)
ghost use Rattle.std.specs.Prelude.{◌+◌, ◌*◌, ◌≡◌, take, None};
ghost use Rattle.spec_c_dumper.specs.origins.Causes.{up_to, entries_in};
ghost use Rattle.spec_session.specs.session.Turns.{visits_in};
ghost use Rattle.c_dumper_dependency_order.specs.leaders.Leaders.{leader_words};
ghost use Rattle.c_dumper_emit.specs.entries.Traced.{entries_of};
ghost use Rattle.session_requests.specs.options.Requests.{stage_of, Fits, Ready, requested_with, idle_after};

use crate::call::Requests;
use crate::options::{Counted, Options, Progress};
use c_dumper_dependency_order::leaders::Leader;
use c_dumper_dependency_order::order_type::Orderer;
use c_dumper_dependency_order::ways::count;
use c_dumper_emit::dump_type::{Request, dump_type, is_idle};
use c_dumper_emit::entries::{ENTRY_BYTES, Pen};
use session_record::arrival::{arrived, limit};
use session_record::settle::visits_in;
use spec_session::session::Reached;

impl Requests<'_> {
    // One request. It is lent of the text what follows that of the requests before it, and of the list what follows their entries.
    // `turn` tells it from the other requests of the call.
    pub(crate) fn dump_one(
        &self,
        work: &mut [u8],
        text: &mut [u8],
        list: &mut [u8],
        leaders: &mut [Leader],
        p: Progress,
        id: u32,
        turn: u32,
    ) -> Progress
        requires { Fits self.now.options p text.old list.old × Ready self.now.options turn (leader_words leaders.old) }
        ensures { (stage_of result work.new text.new list.new
            ≡ requested_with self.now.options (up_to (entries_in list.old)) self.now.table.head self.now.table.section.now id
            (entries_of p.count list.old) p.of.len p.of.visits work.old text.old p.made)
            × Fits self.now.options result text.new list.new
            × (take (p.count * 12) list.new ≡ take (p.count * 12) list.old)
            × (result.of.stop ≡ None → (result.of.visits ≡ visits_in work.new)
            × Ready self.now.options (turn + 1) (leader_words leaders.new)) }
    {
        let len = p.of.len;
        let from = len as usize;
        let to = limit(text.len(), from);
        let entries = p.count * ENTRY_BYTES;
        let start = Pen { at: 0, count: 0 };
        let q = Request {
            req: id,
            turn,
            lists: self.options.is_listed(),
        };
        let o = Orderer {
            table: self.table,
            ceiling: self.options.ceiling(),
        };
        let d = dump_type(
            &o,
            work,
            &mut text[from..to],
            &mut list[entries..],
            leaders,
            start,
            q,
            p.made,
        );
        match d.pen {
            Ok(pen) => Counted {
                of: arrived(len, visits_in(work), Ok(pen.at)),
                count: p.count + pen.count,
                made: d.made,
            },
            Err(refusal) => Counted {
                of: arrived(len, p.of.visits, Err(refusal)),
                count: p.count,
                made: d.made,
            },
        }
    }

    // The next of all ids, of which most have nothing to write. Its turn is the id itself.
    pub(crate) fn dump_next(
        &self,
        work: &mut [u8],
        text: &mut [u8],
        list: &mut [u8],
        leaders: &mut [Leader],
        p: Progress,
        id: u32,
    ) -> Progress
        requires { Fits self.now.options p text.old list.old × Ready self.now.options id (leader_words leaders.old)
            × (p.of.visits ≡ visits_in work.old) }
        ensures { (stage_of result work.new text.new list.new
            ≡ requested_with self.now.options (up_to (entries_in list.old)) self.now.table.head self.now.table.section.now id
            (entries_of p.count list.old) p.of.len (visits_in work.old) work.old text.old p.made)
            × Fits self.now.options result text.new list.new
            × (result.of.stop ≡ None → (result.of.visits ≡ visits_in work.new)
            × Ready self.now.options (id + 1) (leader_words leaders.new)) }
    {
        if is_idle(&self.table, work, id) {
            return pass_idle(p, self.options);
        }
        self.dump_one(work, text, list, leaders, p, id, id)
    }
}

// A request that has nothing to write: it makes one call of ordering, which only a ceiling counts.
#[tactic(auto, unfolding(crate::specs::options::Requests::idle_after))]
fn pass_idle(p: Progress, o: Options) -> Progress
    ensures { result ≡ idle_after p o }
{
    match count(o.ceiling(), p.made) {
        Ok(made) => Counted {
            of: Reached { stop: None, ..p.of },
            made,
            ..p
        },
        Err(refusal) => Counted {
            of: Reached {
                stop: Some(refusal),
                ..p.of
            },
            ..p
        },
    }
}
