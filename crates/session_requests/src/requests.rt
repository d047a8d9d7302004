// The calls of a session by value: one request, the request for all ids and a list of ids, each with its options. What they are
// plain, under a ceiling, and with a list that gets an entry for each line: proofs/options/Cases. Opening: `open_call`.
ghost use Rattle.std.specs.Prelude.{◌+◌, ◌*◌, ◌-◌, ◌≤◌, true, ◌≡◌, [], length, None};
ghost use Rattle.spec_c_dumper.specs.origins.Causes.{up_to, entries_in};
ghost use Rattle.spec_session.specs.session.Turns.{is_current, table_for, refused_turn};
ghost use Rattle.spec_session.specs.calls.Lists.{ids_in};
ghost use Rattle.c_dumper_dependency_order.specs.leaders.Leaders.{leader_words};
ghost use Rattle.session_requests.specs.options.Options.{is_listed};
ghost use Rattle.session_requests.specs.declared.options.Options.TheVariants.{Listed};
ghost use Rattle.session_requests.specs.options.Requests.{stage_of, Ready, requested_from_with};
ghost use Rattle.session_requests.specs.options.Requests.{ended_of, settled_with, type_call_with, types_call_with};
ghost use Rattle.session_requests.specs.options.Lists.{cleared_if, list_after, end_with};
ghost use Rattle.session_requests.specs.options.Lists.{list_call_with, tally_of, unknown_after, call_with};

use crate::call::{Call, Requests};
use crate::options::{Counted, Ended, Options, Progress, Tallied, Wanted};
use base_bytes::limit;
use base_bytes::refusal::Refusal;
use base_bytes::word::get_word;
use btf_open_causes::header::btf_of;
use btf_type_table::table::Table;
use c_dumper_dependency_order::leaders::Leader;
use c_dumper_emit::entries::ENTRY_BYTES;
use session_record::arrival::{clear_after, count_of, settle_list};
use session_record::settle::{clear_from, is_current, refused, settle, stays_open, visits_in};
use spec_session::session::{Reached, Session, Tally, Turn};

// Before the first request of a call, after a text of len bytes and so many visits.
fn none_yet(len: u32, visits: u32) -> Progress
    ensures { result ≡ record { of = record { len = len; stop = None; visits = visits }; count = 0; made = 0 } }
{
    Counted::none(Reached {
        len,
        stop: None,
        visits,
    })
}

// After so many accepted ids.
fn tally_of(p: Progress, accepted: u32) -> Tallied
    ensures { result ≡ tally_of p accepted }
{
    Counted {
        of: Tally {
            len: p.of.len,
            stop: p.of.stop,
            accepted,
            visits: p.of.visits,
        },
        count: p.count,
        made: p.made,
    }
}

// An id that is not below the count of types.
fn unknown(p: Progress) -> Progress
    ensures { result ≡ unknown_after p }
{
    Counted {
        of: Reached {
            stop: Some(Refusal::NoSuchId),
            ..p.of
        },
        ..p
    }
}

// With a list the text is zeroed after each id, as single requests leave it.
fn clear_if(text: &mut [u8], len: u32, o: Options)
    ensures { text.new ≡ cleared_if (is_listed o) len text.old }
{
    match o {
        Options::Listed => clear_from(text, len as usize),
        Options::Plain | Options::Within(_) => {}
    }
}

impl Requests<'_> {
    // Every id from 1 upward, to the first that is refused.
    fn dump_all(
        &self,
        work: &mut [u8],
        text: &mut [u8],
        list: &mut [u8],
        leaders: &mut [Leader],
        len: u32,
    ) -> Progress
        requires { (len ≤ length text.old) × Ready self.now.options 1 (leader_words leaders.old) }
        ensures { (stage_of result work.new text.new list.new
            ≡ requested_from_with self.now.options (up_to (entries_in list.old)) self.now.table.head self.now.table.section.now
            (self.now.table.head.types - 1) 1 [] len work.old text.old 0) × (result.count ≤ entries_in list.old) }
    {
        let n = self.table.head.types;
        let mut r = none_yet(len, visits_in(work));
        for id in 1..n {
            r = self.dump_next(work, text, list, leaders, r, id);
            if r.of.stop.is_some() {
                return r;
            }
        }
        r
    }

    // The ids of a list in their order, to the first that is refused; what follows the text and the entries is not zeroed yet. (By index:
    // the count is of 32 bits, and k is the turn and what the answer tells; chunks with a take, enumerate and a cast are no plainer.)
    fn dump_ids(
        &self,
        s: Session,
        work: &mut [u8],
        text: &mut [u8],
        list: &mut [u8],
        leaders: &mut [Leader],
        ids: &[u8],
    ) -> Tallied
        requires { (self.now.table.head ≡ table_for s self.now.table.section.now)
            × (is_current s (length self.now.table.section.now) (length work.old) (length text.old) ≡ true)
            × Ready self.now.options 1 (leader_words leaders.old) }
        ensures { (end_with s result work.new text.new list.new
            ≡ list_call_with self.now.options s self.now.table.section.now work.old text.old (ids_in ids.now) list.old)
            × (result.count ≤ entries_in list.old) }
    {
        let n = count_of(ids);
        let mut r = none_yet(s.text_len, s.visits);
        for k in 0..n {
            let id = get_word(ids, k as usize);
            if s.types <= id {
                return tally_of(unknown(r), k);
            }
            r = self.dump_one(work, text, list, leaders, r, id, k + 1);
            if r.of.stop.is_some() {
                return tally_of(r, k);
            }
            clear_if(text, r.of.len, self.options);
        }
        tally_of(r, n)
    }
}

// Zeroes what follows the entries after a list of ids, of which 10 at the first leaves everything.
#[tactic(auto, unfolding(crate::specs::options::Lists::list_after))]
fn clear_list(list: &mut [u8], r: Tallied)
    requires { r.count ≤ entries_in list.old }
    ensures { list.new ≡ list_after r list.old }
{
    let from = r.count * ENTRY_BYTES;
    if stays_open(r.of.stop) {
        return clear_after(list, r.of.accepted, from);
    }
    clear_from(list, from);
}

// A call that leaves everything as it was.
fn unchanged(s: Session, c: Refusal, value: u32) -> Ended
    ensures { result ≡ record { of = refused_turn s c value; count = 0; made = 0 } }
{
    Counted::none(refused(s, c, value))
}

// The end of a call: what follows the text and the entries is zeroed.
fn end(s: Session, work: &mut [u8], text: &mut [u8], list: &mut [u8], r: Progress) -> Ended
    requires { r.count ≤ entries_in list.old }
    ensures { ended_of result work.new text.new list.new
        ≡ settled_with s (length work.old) (length text.old) list.old (stage_of r work.old text.old list.old) }
{
    let turn = settle(s, work, text, r.of);
    clear_from(list, r.count * ENTRY_BYTES);
    Counted {
        of: turn,
        count: r.count,
        made: r.made,
    }
}

// ---- the three forms, with the leaders, which only a list needs

impl<'a> Call<'a> {
    // Where the session is current.
    fn requests(&self) -> Requests<'a>
        ensures { (result.table.head ≡ table_for self.now.session self.now.section.now)
            × (result.table.section.now ≡ self.now.section.now) × (result.options ≡ self.now.options) }
    {
        let s = self.session;
        let section = self.section;
        let head = btf_of(section, s.pointer_size, s.modes, s.types);
        Requests {
            table: Table { head, section },
            options: self.options,
        }
    }

    fn type_with(
        &self,
        work: &mut [u8],
        text: &mut [u8],
        list: &mut [u8],
        leaders: &mut [Leader],
        id: u32,
    ) -> Ended
        requires { Ready self.now.options 1 (leader_words leaders.old) }
        ensures { ended_of result work.new text.new list.new
            ≡ type_call_with self.now.options self.now.session self.now.section.now work.old text.old id list.old 0 }
    {
        let s = self.session;
        if !is_current(s, self.section.len(), work.len(), text.len()) {
            return unchanged(s, Refusal::SessionClosed, s.text_len);
        }
        if s.types <= id {
            return unchanged(s, Refusal::NoSuchId, s.text_len);
        }
        let start = none_yet(s.text_len, s.visits);
        let requests = self.requests();
        let r = requests.dump_one(work, text, list, leaders, start, id, 1);
        end(s, work, text, list, r)
    }

    fn types_with(
        &self,
        work: &mut [u8],
        text: &mut [u8],
        list: &mut [u8],
        leaders: &mut [Leader],
    ) -> Ended
        requires { Ready self.now.options 1 (leader_words leaders.old) }
        ensures { ended_of result work.new text.new list.new
            ≡ types_call_with self.now.options self.now.session self.now.section.now work.old text.old list.old }
    {
        let s = self.session;
        if !is_current(s, self.section.len(), work.len(), text.len()) {
            return unchanged(s, Refusal::SessionClosed, s.text_len);
        }
        let requests = self.requests();
        let r = requests.dump_all(work, text, list, leaders, s.text_len);
        end(s, work, text, list, r)
    }

    fn list_with(
        &self,
        work: &mut [u8],
        text: &mut [u8],
        list: &mut [u8],
        leaders: &mut [Leader],
        ids: &[u8],
    ) -> Ended
        requires { Ready self.now.options 1 (leader_words leaders.old) }
        ensures { ended_of result work.new text.new list.new
            ≡ list_call_with self.now.options self.now.session self.now.section.now work.old text.old (ids_in ids.now) list.old }
    {
        let s = self.session;
        if ids.len() < 4 {
            return Counted::none(Turn {
                session: s,
                answer: Ok(0),
            });
        }
        if !is_current(s, self.section.len(), work.len(), text.len()) {
            return unchanged(s, Refusal::SessionClosed, 0);
        }
        let requests = self.requests();
        let r = requests.dump_ids(s, work, text, list, leaders, ids);
        let turn = settle_list(s, work, text, r.of);
        clear_list(list, r);
        Counted {
            of: turn,
            count: r.count,
            made: r.made,
        }
    }

    // By what is wanted.
    fn request_with(
        &self,
        work: &mut [u8],
        text: &mut [u8],
        list: &mut [u8],
        leaders: &mut [Leader],
        wanted: Wanted,
    ) -> Ended
        requires { Ready self.now.options 1 (leader_words leaders.old) }
        ensures { ended_of result work.new text.new list.new
            ≡ call_with self.now.options self.now.session self.now.section.now work.old text.old wanted.entry list.old }
    {
        match wanted {
            Wanted::One(id) => self.type_with(work, text, list, leaders, id),
            Wanted::All => self.types_with(work, text, list, leaders),
            Wanted::Ids(ids) => self.list_with(work, text, list, leaders, ids),
        }
    }

    // With a list. Its leaders stand in a function of their own: another call pays nothing for them at its entry.
    #[inline(never)]
    fn request_listed(
        &self,
        work: &mut [u8],
        text: &mut [u8],
        list: &mut [u8],
        wanted: Wanted,
    ) -> Ended
        requires { self.now.options ≡ Listed }
        ensures { ended_of result work.new text.new list.new
            ≡ call_with self.now.options self.now.session self.now.section.now work.old text.old wanted.entry list.old }
    {
        let mut leaders = [Leader::NONE; limit::TYPES_LEN];
        self.request_with(work, text, list, &mut leaders, wanted)
    }

    // The call. Without `Listed` the list is only zeroed.
    pub fn request(
        &self,
        work: &mut [u8],
        text: &mut [u8],
        list: &mut [u8],
        wanted: Wanted,
    ) -> Ended
        ensures { ended_of result work.new text.new list.new
            ≡ call_with self.now.options self.now.session self.now.section.now work.old text.old wanted.entry list.old }
    {
        match self.options {
            Options::Listed => self.request_listed(work, text, list, wanted),
            Options::Plain | Options::Within(_) => {
                self.request_with(work, text, list, &mut [Leader::NONE; 0], wanted)
            }
        }
    }
}
