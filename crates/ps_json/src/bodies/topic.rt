// Calls on a topic.
ghost use Rattle.serde_json.specs.View.{members_view};
ghost use Rattle.ps_names.specs.Names.{is_topic_name};
ghost use Rattle.ps_json.specs.Checks.{Reads, name_read};
ghost use Rattle.ps_json.specs.Creations.{create_topic};
ghost use Rattle.ps_json.specs.Updates.{update_topic};

use crate::bodies::fields::check_fields;
use crate::bodies::resource::{check_built, check_name, mask_in, read_mask, resource_in};
use crate::masks::names_in;
use crate::read_error::{ReadError, refused};
use crate::settings::{changed_topic, new_topic};
use ps_base::Reason;
use ps_fields::Object;
use ps_model::Command;
use ps_names::TopicName;
use serde_json::{Map, Value};
use std::alloc::Global;

/// The command that creates the topic of this name, or the first check that is broken.
pub fn create_topic(
    alloc: Global,
    name: &str,
    fields: &Map<String, Value>,
) -> Result<Command, ReadError>
    ensures { Reads result (create_topic name.now (members_view fields.now.entries)) }
{
    check_built(alloc, Object::Topic, "", fields, &[])?;
    let topic = topic_at(alloc, name)?;
    check_fields(alloc, Object::Topic, fields)?;
    check_name(fields, name)?;
    let config = new_topic(alloc, fields)?;
    Ok(Command::CreateTopic { topic, config })
}

/// The command that updates the topic of this name, or the first check that is broken.
pub fn update_topic(
    alloc: Global,
    name: &str,
    fields: &Map<String, Value>,
) -> Result<Command, ReadError>
    ensures { Reads result (update_topic name.now (members_view fields.now.entries)) }
{
    let empty = Map::new(alloc);
    let settings = resource_in(fields, "topic", &empty);
    let names = names_in(alloc, mask_in(fields))?;
    check_built(alloc, Object::Topic, "topic.", settings, names.as_slice())?;
    let topic = topic_at(alloc, name)?;
    check_fields(alloc, Object::TopicUpdate, fields)?;
    check_name(settings, name)?;
    let mask = read_mask(Object::Topic, names.as_slice())?;
    let config = changed_topic(alloc, settings, mask)?;
    Ok(Command::UpdateTopic {
        topic,
        mask,
        config,
    })
}

/// The topic of this name.
pub fn topic_at(alloc: Global, name: &str) -> Result<TopicName, ReadError>
    ensures { Reads result (name_read (is_topic_name name.now) name.now) }
{
    match TopicName::read(alloc, name)? {
        Some(topic) => Ok(topic),
        None => Err(refused(Reason::Name)),
    }
}
