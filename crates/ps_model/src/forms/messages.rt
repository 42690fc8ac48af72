use crate::forms::Form;
use ps_base::{AckId, Octets, OutOfMemory, Text};
use ps_codec::{FieldReader, FieldWriter};
use ps_message::{Attributes, Message};
use std::alloc::Global;

impl Form for Message {
    ghost use Rattle.ps_model.specs.Forms.{message_form, message_at, MessageFits};

    ghost form = { message_form };

    ghost at = { message_at };

    ghost fits = { MessageFits };

    fn write_to(&self, writer: &mut FieldWriter) -> Result<(), OutOfMemory> {
        self.payload.write_to(writer)?;
        self.attributes.write_to(writer)?;
        self.key.write_to(writer)
    }

    fn read_from(
        alloc: Global,
        reader: &mut FieldReader<'_>,
    ) -> Result<Option<Message>, OutOfMemory> {
        let parts = <(Octets, (Attributes, Text))>::read_from(alloc, reader)?;
        let Some((payload, (attributes, key))) = parts else {
            return Ok(None);
        };
        Ok(Some(Message {
            payload,
            attributes,
            key,
        }))
    }
}

impl Form for AckId {
    ghost use Rattle.ps_model.specs.Forms.{ack_id_form, ack_id_at, AckIdFits};

    ghost form = { ack_id_form };

    ghost at = { ack_id_at };

    ghost fits = { AckIdFits };

    fn write_to(&self, writer: &mut FieldWriter) -> Result<(), OutOfMemory> {
        self.sub.write_to(writer)?;
        self.message.write_to(writer)?;
        self.lease.write_to(writer)
    }

    fn read_from(
        alloc: Global,
        reader: &mut FieldReader<'_>,
    ) -> Result<Option<AckId>, OutOfMemory> {
        let Some((sub, (message, lease))) = <(u64, (u64, u64))>::read_from(alloc, reader)? else {
            return Ok(None);
        };
        Ok(Some(AckId {
            sub,
            message,
            lease,
        }))
    }
}
