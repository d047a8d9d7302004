// The session record, as a struct and as bytes, and how a call ends. (Attributes stay on one line, however long: the formatter joins them.)
#![tactic(auto)]

#[tactic(auto, unfolding(spec_session::specs::calls::Calls::limit_of, crate::specs::arrival::Arrival::clipped, crate::specs::arrival::Arrival::arrived_in, spec_session::specs::calls::Lists::count_in, spec_session::specs::calls::Lists::tailed, spec_session::specs::calls::Lists::list_end, crate::specs::numbered::Numbered::list_end_by, spec_session::specs::session::Turns::call_of))]
pub mod arrival;
#[tactic(auto, unfolding(crate::specs::arrival::Arrival::clipped, crate::specs::numbered::Numbered::arrived_by, crate::specs::numbered::Numbered::list_end_by, spec_session::specs::session::Turns::call_of, crate::specs::record_bytes::Record::record_opened, crate::specs::record_words::Words::packed, spec_session::specs::session::Answers::answer_of, spec_session::specs::session::Answers::number_of, spec_session::specs::session::Answers::value_of, crate::specs::record_bytes::Record::record_after, crate::specs::record_bytes::Record::record_refused, crate::specs::record_bytes::Record::record_longer, crate::specs::record_bytes::Record::record_listed))]
pub mod numbered;
pub mod record_bytes;
#[tactic(auto, unfolding(crate::specs::record_words::Words::packed, spec_session::specs::session::Answers::number_of, spec_session::specs::session::Answers::value_of, crate::specs::record_words::Words::get_long, crate::specs::record_words::Words::put_long, crate::specs::record_words::Words::decoded, crate::specs::record_words::Words::encoded, crate::specs::record_words::Words::encoded_last, crate::specs::record_words::Words::put_longs, crate::specs::record_words::Words::unused_zero, crate::specs::record_words::Words::put_reached))]
pub mod record_words;
pub mod settle;
