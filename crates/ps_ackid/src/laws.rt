ghost use Rattle.std.specs.Prelude.{◌≡◌};
ghost use Rattle.ps_base.specs.declared.ack_id.AckId.{AckId};
ghost use Rattle.ps_ackid.specs.AckTexts.{ack_text, IsAckId};

/// No two ack ids have the same text.
pub fn texts_differ()
    ensures { (a b : AckId) → IsAckId a → IsAckId b → ack_text a ≡ ack_text b → a ≡ b }
{}
