// Topics and snapshots.
ghost use Rattle.std.specs.Prelude.{◌≡◌, IfOk, option_map};
ghost use Rattle.serde_json.specs.View.{view};
ghost use Rattle.ps_json.specs.Times.{duration_data};
ghost use Rattle.ps_json.specs.Resources.{topic_name_data};

use crate::print::Shown;
use crate::print::fields::{filled_labels, put_field};
use crate::print::time::{duration, moment};
use ps_base::{OutOfMemory, Text};
use ps_model::{SnapShown, TopicShown};
use serde_json::{Map, Value};
use std::alloc::Global;

impl Shown for TopicShown {
    ghost use Rattle.ps_json.specs.Resources.{topic_data};

    ghost shown_as = { topic_data };

    fn to_value(&self, alloc: Global) -> Result<Value, OutOfMemory> {
        let labels = filled_labels(alloc, &self.config.labels)?;
        let retention = set_duration(alloc, self.config.retention)?;
        let name = self.name.to_value(alloc)?;
        let mut fields = Map::new(alloc);
        put_field(&mut fields, alloc, "labels", labels)?;
        put_field(&mut fields, alloc, "messageRetentionDuration", retention)?;
        put_field(&mut fields, alloc, "name", Some(name))?;
        Ok(Value::Object(fields))
    }
}

impl Shown for SnapShown {
    ghost use Rattle.ps_json.specs.Resources.{snapshot_data};

    ghost shown_as = { snapshot_data };

    fn to_value(&self, alloc: Global) -> Result<Value, OutOfMemory> {
        let mut fields = Map::new(alloc);
        let expiry = moment(alloc, self.expiry)?;
        put_field(&mut fields, alloc, "expireTime", Some(expiry))?;
        let labels = filled_labels(alloc, &self.labels)?;
        put_field(&mut fields, alloc, "labels", labels)?;
        let name = self.name.to_value(alloc)?;
        put_field(&mut fields, alloc, "name", Some(name))?;
        let topic = topic_name(alloc, &self.topic)?;
        put_field(&mut fields, alloc, "topic", Some(topic))?;
        Ok(Value::Object(fields))
    }
}

impl Shown for Text {
    ghost use Rattle.serde_json.specs.Data.{string};

    ghost shown_as = { string };

    fn to_value(&self, alloc: Global) -> Result<Value, OutOfMemory> {
        Ok(Value::try_from_str(alloc, self.as_str())?)
    }
}

/// The name of the topic, or what stands for one that was deleted.
pub fn topic_name(alloc: Global, topic: &Option<Text>) -> Result<Value, OutOfMemory>
    ensures { IfOk result (λ value. view value ≡ topic_name_data topic.now) }
{
    let name = match topic {
        Some(name) => name.as_str(),
        None => "_deleted-topic_",
    };
    Ok(Value::try_from_str(alloc, name)?)
}

/// The duration, if one is set.
pub fn set_duration(alloc: Global, ms: Option<u64>) -> Result<Option<Value>, OutOfMemory>
    ensures { IfOk result (λ value. option_map view value ≡ option_map duration_data ms) }
{
    match ms {
        Some(ms) => Ok(Some(duration(alloc, ms)?)),
        None => Ok(None),
    }
}
