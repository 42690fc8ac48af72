ghost use Rattle.ps_codec.specs.Fields.{bytes_field};
ghost use Rattle.ps_names.specs.Names.{is_topic_name, is_sub_name, is_snap_name};
ghost use Rattle.ps_model.specs.Checks.{AsReadIsNormal, NormalIsAsRead};
ghost use Rattle.ps_model.specs.Forms.{name_at, NameFits, text_at, TextFits, labels_form, labels_at, LabelsFit, message_form, message_at, MessageFits, ack_id_form, ack_id_at, AckIdFits, dead_letter_policy_form, dead_letter_policy_at, DeadLetterPolicyFits, retry_policy_form, retry_policy_at, RetryPolicyFits, topic_config_form, topic_config_at, TopicConfigFits, sub_config_form, sub_config_at, SubConfigFits};
ghost use Rattle.ps_model.specs.FormLaws.{IsForm};
ghost use Rattle.ps_model.specs.Laws.{DeliverableInTurn, EmptyWhereNothingIs, StartsSound};

/// A message is deliverable if and only if it is ready and each earlier unacknowledged message of its key is leased or
/// deliverable.
pub fn law_in_turn()
    ensures deliverable_in_turn { DeliverableInTurn }
{}

/// The empty world is sound.
pub fn law_starts_sound()
    ensures starts_sound { StartsSound }
{}

/// A pull that may take a message and isn't refused is empty if and only if nothing is deliverable.
pub fn law_5()
    ensures empty_where_nothing_is { EmptyWhereNothingIs }
{}

/// A command is in the form in which it is recorded if and only if bringing it into that form doesn't change it.
pub fn law_normal()
    ensures read_is_normal { AsReadIsNormal }
    ensures normal_is_read { NormalIsAsRead }
{}

/// Each value has one encoding: what was written is read back, whatever follows it, and nothing else is read.
pub fn law_forms()
    ensures text { IsForm bytes_field text_at TextFits }
    ensures topic_name { IsForm bytes_field (name_at is_topic_name) (NameFits is_topic_name) }
    ensures sub_name { IsForm bytes_field (name_at is_sub_name) (NameFits is_sub_name) }
    ensures snap_name { IsForm bytes_field (name_at is_snap_name) (NameFits is_snap_name) }
    ensures labels { IsForm labels_form labels_at LabelsFit }
    ensures message { IsForm message_form message_at MessageFits }
    ensures ack_id { IsForm ack_id_form ack_id_at AckIdFits }
    ensures dead_letter { IsForm dead_letter_policy_form dead_letter_policy_at DeadLetterPolicyFits }
    ensures retry { IsForm retry_policy_form retry_policy_at RetryPolicyFits }
    ensures topic_config { IsForm topic_config_form topic_config_at TopicConfigFits }
    ensures sub_config { IsForm sub_config_form sub_config_at SubConfigFits }
{}
