ghost use Rattle.std.specs.Prelude.{◌≡◌, true, false, IfOk, Some, None, if◌then◌else◌};
ghost use Rattle.std.specs.Str.{bytes_eq};
ghost use Rattle.ps_names.specs.Parts.{has_slash};
ghost use Rattle.ps_names.specs.Names.{is_name_of, is_topic_name, is_sub_name, is_snap_name, is_project, project_part, id_part};

use crate::grammar::{is_parts_of, is_project, part, parts_of};
use ps_base::{Duplicate, OutOfMemory, Text};
use std::alloc::Global;
use std::marker::Model;

/// Whether a text is the name of this kind of resource.
fn is_name_of(alloc: Global, kind: &str, text: &str) -> Result<bool, OutOfMemory>
    requires plain { has_slash kind.now ≡ false }
    ensures { IfOk result (λ is_name. is_name ≡ is_name_of kind.now text.now) }
{
    let parts = parts_of(alloc, text)?;
    Ok(is_parts_of(kind, parts.as_slice()))
}

/// The name of a topic, `projects/{project}/topics/{id}`.
#[derive(Clone, Drop)]
pub struct TopicName {
    text: Text,
}

impl Model for TopicName {
    ghost use Rattle.std.specs.Prelude.{List, ℕ, ◌≡◌, true};
    ghost use Rattle.ps_names.specs.Names.{is_topic_name};

    ghost Value = { List ℕ };

    ghost view = { λ it. it.text };

    ghost invariant = { λ it. is_topic_name it.text ≡ true };
}

impl TopicName {
    /// The name that this text is. None exactly if it is outside the grammar.
    pub fn read(alloc: Global, text: &str) -> Result<Option<TopicName>, OutOfMemory>
        ensures { IfOk result (λ name. name ≡ (if is_topic_name text.now then Some text.now else None)) }
    {
        if !is_name_of(alloc, "topics", text)? {
            return Ok(None);
        }
        let text = Text::from_str(alloc, text)?;
        Ok(Some(TopicName { text }))
    }

    pub fn text(&self) -> &str
        ensures value { result.now ≡ self.now }
        ensures grammar { is_topic_name self.now ≡ true }
    {
        self.text.as_str()
    }

    /// The project's part of the name.
    pub fn project(&self) -> &str
        ensures { result.now ≡ project_part self.now }
    {
        part(self.text.as_str(), 1)
    }

    /// The last part of the name.
    pub fn id(&self) -> &str
        ensures { result.now ≡ id_part self.now }
    {
        part(self.text.as_str(), 3)
    }

    pub fn is_same(&self, other: &TopicName) -> bool
        ensures { result ≡ bytes_eq self.now other.now }
    {
        self.text.is_same(&other.text)
    }
}

impl Duplicate for TopicName {
    fn copy(&self, _alloc: Global) -> Result<TopicName, OutOfMemory> {
        Ok(self.clone()?)
    }
}

/// The name of a subscription, `projects/{project}/subscriptions/{id}`.
#[derive(Clone, Drop)]
pub struct SubName {
    text: Text,
}

impl Model for SubName {
    ghost use Rattle.std.specs.Prelude.{List, ℕ, ◌≡◌, true};
    ghost use Rattle.ps_names.specs.Names.{is_sub_name};

    ghost Value = { List ℕ };

    ghost view = { λ it. it.text };

    ghost invariant = { λ it. is_sub_name it.text ≡ true };
}

impl SubName {
    /// The name that this text is. None exactly if it is outside the grammar.
    pub fn read(alloc: Global, text: &str) -> Result<Option<SubName>, OutOfMemory>
        ensures { IfOk result (λ name. name ≡ (if is_sub_name text.now then Some text.now else None)) }
    {
        if !is_name_of(alloc, "subscriptions", text)? {
            return Ok(None);
        }
        let text = Text::from_str(alloc, text)?;
        Ok(Some(SubName { text }))
    }

    pub fn text(&self) -> &str
        ensures value { result.now ≡ self.now }
        ensures grammar { is_sub_name self.now ≡ true }
    {
        self.text.as_str()
    }

    /// The project's part of the name.
    pub fn project(&self) -> &str
        ensures { result.now ≡ project_part self.now }
    {
        part(self.text.as_str(), 1)
    }

    /// The last part of the name.
    pub fn id(&self) -> &str
        ensures { result.now ≡ id_part self.now }
    {
        part(self.text.as_str(), 3)
    }

    pub fn is_same(&self, other: &SubName) -> bool
        ensures { result ≡ bytes_eq self.now other.now }
    {
        self.text.is_same(&other.text)
    }
}

impl Duplicate for SubName {
    fn copy(&self, _alloc: Global) -> Result<SubName, OutOfMemory> {
        Ok(self.clone()?)
    }
}

/// The name of a snapshot, `projects/{project}/snapshots/{id}`.
#[derive(Clone, Drop)]
pub struct SnapName {
    text: Text,
}

impl Model for SnapName {
    ghost use Rattle.std.specs.Prelude.{List, ℕ, ◌≡◌, true};
    ghost use Rattle.ps_names.specs.Names.{is_snap_name};

    ghost Value = { List ℕ };

    ghost view = { λ it. it.text };

    ghost invariant = { λ it. is_snap_name it.text ≡ true };
}

impl SnapName {
    /// The name that this text is. None exactly if it is outside the grammar.
    pub fn read(alloc: Global, text: &str) -> Result<Option<SnapName>, OutOfMemory>
        ensures { IfOk result (λ name. name ≡ (if is_snap_name text.now then Some text.now else None)) }
    {
        if !is_name_of(alloc, "snapshots", text)? {
            return Ok(None);
        }
        let text = Text::from_str(alloc, text)?;
        Ok(Some(SnapName { text }))
    }

    pub fn text(&self) -> &str
        ensures value { result.now ≡ self.now }
        ensures grammar { is_snap_name self.now ≡ true }
    {
        self.text.as_str()
    }

    /// The project's part of the name.
    pub fn project(&self) -> &str
        ensures { result.now ≡ project_part self.now }
    {
        part(self.text.as_str(), 1)
    }

    /// The last part of the name.
    pub fn id(&self) -> &str
        ensures { result.now ≡ id_part self.now }
    {
        part(self.text.as_str(), 3)
    }

    pub fn is_same(&self, other: &SnapName) -> bool
        ensures { result ≡ bytes_eq self.now other.now }
    {
        self.text.is_same(&other.text)
    }
}

impl Duplicate for SnapName {
    fn copy(&self, _alloc: Global) -> Result<SnapName, OutOfMemory> {
        Ok(self.clone()?)
    }
}

/// The part of a name that names a project.
#[derive(Clone, Drop)]
pub struct ProjectName {
    text: Text,
}

impl Model for ProjectName {
    ghost use Rattle.std.specs.Prelude.{List, ℕ, ◌≡◌, true};
    ghost use Rattle.ps_names.specs.Names.{is_project};

    ghost Value = { List ℕ };

    ghost view = { λ it. it.text };

    ghost invariant = { λ it. is_project it.text ≡ true };
}

impl ProjectName {
    /// The project's part that this text is. None exactly if it is outside the grammar.
    pub fn read(alloc: Global, text: &str) -> Result<Option<ProjectName>, OutOfMemory>
        ensures { IfOk result (λ name. name ≡ (if is_project text.now then Some text.now else None)) }
    {
        if !is_project(text) {
            return Ok(None);
        }
        let text = Text::from_str(alloc, text)?;
        Ok(Some(ProjectName { text }))
    }

    pub fn text(&self) -> &str
        ensures value { result.now ≡ self.now }
        ensures grammar { is_project self.now ≡ true }
    {
        self.text.as_str()
    }
}

impl Duplicate for ProjectName {
    fn copy(&self, _alloc: Global) -> Result<ProjectName, OutOfMemory> {
        Ok(self.clone()?)
    }
}
