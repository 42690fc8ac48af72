ghost use Rattle.std.specs.Prelude.{◌≡◌, length, Some, IfSome, IfNone};
ghost use Rattle.std.specs.Int.{w64, to_be_bytes};
ghost use Rattle.ps_base.specs.declared.ack_id.AckId.{AckId};
ghost use Rattle.ps_ackid.specs.AckTexts.{ack_bytes, ack_text, IsAckId};

use base64::engine::general_purpose::STANDARD;
use ps_base::AckId;

/// The text of an ack id: the standard base64 of its three big-endian numbers of eight bytes. Allocates nothing.
#[tactic(auto, unfolding(crate::specs::AckTexts::ack_text))]
pub fn write(id: AckId) -> [u8; 32]
    ensures { result ≡ ack_text id }
{
    let mut text = [0; 32];
    let _ = STANDARD.encode_slice(&bytes_of(id), &mut text);
    text
}

/// The ack id that has this text, or `None` if and only if no ack id has it. Allocates nothing.
pub fn read(text: &[u8]) -> Option<AckId>
    // No other text is read as that id.
    ensures some { IfSome result (λ id. text.now ≡ ack_text id) }
    // What was written is read back.
    ensures again { (id : AckId) → IsAckId id → text.now ≡ ack_text id → result ≡ Some id }
    ensures none { IfNone result ((id : AckId) → IsAckId id → text.now ≡ ack_text id → ⊥) }
{
    let mut bytes = [0; 24];
    match STANDARD.decode_slice(text, &mut bytes) {
        Ok(24) => Some(id_of(&bytes)),
        _ => None,
    }
}

fn bytes_of(id: AckId) -> [u8; 24]
    ensures { result ≡ ack_bytes id }
{
    let mut bytes = [0; 24];
    bytes[..8].copy_from_slice(&id.sub.to_be_bytes());
    bytes[8..16].copy_from_slice(&id.message.to_be_bytes());
    bytes[16..].copy_from_slice(&id.lease.to_be_bytes());
    bytes
}

fn id_of(bytes: &[u8; 24]) -> AckId
    ensures bytes { ack_bytes result ≡ bytes.now }
    ensures range { IsAckId result }
{
    let (sub, rest) = bytes.split_at(8);
    let (message, lease) = rest.split_at(8);
    AckId {
        sub: number_of(sub),
        message: number_of(message),
        lease: number_of(lease),
    }
}

fn number_of(bytes: &[u8]) -> u64
    requires { length bytes.now ≡ 8 }
    ensures { to_be_bytes w64 result ≡ bytes.now }
{
    let mut eight = [0; 8];
    eight.copy_from_slice(bytes);
    u64::from_be_bytes(eight)
}
