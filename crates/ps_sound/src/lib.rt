//! Laws over the rules: what holds of every world that a history reaches.
#![tactic(auto)]

mod laws;

pub use laws::{
    law_1, law_2, law_3, law_4_snapshot, law_4_time, law_acknowledged, law_gone_never_matters,
    law_handed_out_in_order, law_live_is_enough, law_modified, law_never_kept_again, law_published,
    law_received, law_refused_settles_only, law_reply_recorded, law_settled_after_step,
    law_settled_at_now, law_settles_for_good, law_sound_after_histories, law_stays_sound,
};
