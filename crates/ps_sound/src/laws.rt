ghost use Rattle.ps_model.specs.Laws.{StaysSound, HandedOutOnce, AcknowledgedForGood, LeasedInOrder, SoughtToTime, SoughtToSnapshot, HandedOutInOrder, NeverKeptAgain, SettledAtNow, SettledAfterStep, GoneNeverMatters};
ghost use Rattle.ps_sound.specs.Histories.{SoundAfterHistories};
ghost use Rattle.ps_sound.specs.Living.{LiveIsSound, LiveIsEnough, LiveRepliesTheSame};
ghost use Rattle.ps_sound.specs.Recorded.{ReplyIsRecorded, RecordedIsAccepted, RefusedOnlySettles, SettlesForGood};
ghost use Rattle.ps_sound.specs.Told.{PublishedIsThere, ReceivedIsHandedOut, AcknowledgedIsSo, ModifiedIsSo};

/// Each accepted entry keeps a sound world so.
pub fn law_stays_sound()
    ensures stays_sound { StaysSound }
{}

/// Every world that a history gives is sound.
pub fn law_sound_after_histories()
    ensures sound_after_histories { SoundAfterHistories }
{}

/// After every entry the leased messages of a key are a prefix of its unacknowledged ones.
pub fn law_3()
    ensures leased_in_order { LeasedInOrder }
{}

/// A sound world is settled at its own moment.
pub fn law_settled_at_now()
    ensures settled_at_now { SettledAtNow }
{}

/// A step leaves nothing to settle.
pub fn law_settled_after_step()
    ensures settled_after_step { SettledAfterStep }
{}

/// One answer hands each message out once, in order of number.
pub fn law_handed_out_in_order()
    ensures handed_out_in_order { HandedOutInOrder }
{}

/// What isn't kept is never kept again.
pub fn law_never_kept_again()
    ensures never_kept_again { NeverKeptAgain }
{}

/// After a seek to a time that wasn't refused each mark of the subscription is what the seek and then expunging
/// say, and the others are as they were.
pub fn law_4_time()
    ensures sought_to_time { SoughtToTime }
{}

/// After a seek to a snapshot that wasn't refused each mark of the subscription is what the seek and then
/// expunging say, and the others are as they were.
pub fn law_4_snapshot()
    ensures sought_to_snapshot { SoughtToSnapshot }
{}

/// What was acknowledged in exactly-once mode isn't handed out again without a seek.
pub fn law_2()
    ensures acknowledged_for_good { AcknowledgedForGood }
{}

/// If a message is handed out twice on a subscription, something ended the first lease in between.
pub fn law_1()
    ensures handed_out_once { HandedOutOnce }
{}

/// The reply to a caller follows again from what was recorded of the call, and that is an entry that its world accepts.
pub fn law_reply_recorded()
    ensures told_again { ReplyIsRecorded }
    ensures accepted { RecordedIsAccepted }
{}

/// A refused command leaves the settled world, and records what the moment alone does.
pub fn law_refused_settles_only()
    ensures settles_only { RefusedOnlySettles }
{}

/// A call settles for good: settling again at its moment changes nothing, and a Tick then records nothing.
pub fn law_settles_for_good()
    ensures settles_for_good { SettlesForGood }
{}

/// After a publish the messages are in the world under the numbers of the reply, which are new, with their contents, topic
/// and moment.
pub fn law_published()
    ensures published { PublishedIsThere }
{}

/// After a pull each message of the reply is leased under its id, with its contents.
pub fn law_received()
    ensures received { ReceivedIsHandedOut }
{}

/// After an acknowledgement in exactly-once mode each id that the reply doesn't list is acknowledged. Outside it each id
/// that names a message's live or last lease is.
pub fn law_acknowledged()
    ensures acknowledged { AcknowledgedIsSo }
{}

/// After a change of deadlines each live lease that it named has the deadline asked for, or has ended.
pub fn law_modified()
    ensures modified { ModifiedIsSo }
{}

/// What is gone never matters: a call on the live part of a sound world gets the same reply, records the same entry and
/// leaves the same live part. That live part is sound too.
pub fn law_gone_never_matters()
    ensures gone_never_matters { GoneNeverMatters }
    ensures live_is_sound { LiveIsSound }
{}

/// Who keeps the live part of the world alone, from the empty world on, accepts the same histories, then tells and
/// records the same, and so gives the same replies to every run of calls.
pub fn law_live_is_enough()
    ensures live_is_enough { LiveIsEnough }
    ensures live_replies_the_same { LiveRepliesTheSame }
{}
