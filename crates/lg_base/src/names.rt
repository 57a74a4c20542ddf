ghost use Rattle.std.specs.Prelude.{◌≡◌, ◌↔◌, List, ℕ, IsUtf8, IfOk, IsErrOf};
ghost use Rattle.std.specs.Ordering.{nat_cmp};
ghost use Rattle.std.specs.Cmp.Lexicographic.{slice_cmp};

use crate::texts::{Text, TextFault};
use std::alloc::{AllocError, Global};
use std::cmp::Ordering;
use std::marker::Model;

/// The id of a task.
#[derive(Debug, Drop)]
pub struct TaskId {
    text: Text,
}

impl Model for TaskId {
    ghost Value = { List ℕ };

    ghost view = { λ id. id.text };
}

impl TaskId {
    /// The id that these bytes spell. Any text is one.
    pub fn text(alloc: Global, bytes: &[u8]) -> Result<TaskId, TextFault>
        ensures same { IfOk result (λ id. id ≡ bytes.now) }
        ensures utf8 { IfOk result (λ id. IsUtf8 id) }
        ensures not_utf8 { IsErrOf result TextFault.NotUtf8 ↔ (¬ IsUtf8 bytes.now) }
    {
        let text = Text::text(alloc, bytes)?;
        Ok(TaskId { text })
    }

    /// The bytes.
    pub fn bytes(&self) -> &[u8]
        ensures { result.now ≡ self.now }
    {
        self.text.bytes()
    }

    /// The id as Rust's text.
    pub fn as_str(&self) -> &str
        ensures same { result.now ≡ self.now }
        ensures utf8 { IsUtf8 self.now }
    {
        self.text.as_str()
    }

    /// Which of two ids is first in the order of their bytes.
    pub fn cmp(&self, other: &TaskId) -> Ordering
        ensures { result ≡ slice_cmp nat_cmp self.now other.now }
    {
        self.text.cmp(&other.text)
    }
}

impl From<Text> for TaskId {
    ghost from_gives = { λ text id. id ≡ text };

    /// The id that a text spells. It takes no memory.
    fn from(text: Text) -> TaskId {
        TaskId { text }
    }
}

impl Clone for TaskId {
    ghost is_clone = { λ old new. new ≡ old };

    fn clone(&self) -> Result<TaskId, AllocError> {
        let text = self.text.clone()?;
        Ok(TaskId { text })
    }
}

/// The id of a worker.
#[derive(Debug, Drop)]
pub struct WorkerId {
    text: Text,
}

impl Model for WorkerId {
    ghost Value = { List ℕ };

    ghost view = { λ id. id.text };
}

impl WorkerId {
    /// The id that these bytes spell. Any text is one.
    pub fn text(alloc: Global, bytes: &[u8]) -> Result<WorkerId, TextFault>
        ensures same { IfOk result (λ id. id ≡ bytes.now) }
        ensures utf8 { IfOk result (λ id. IsUtf8 id) }
        ensures not_utf8 { IsErrOf result TextFault.NotUtf8 ↔ (¬ IsUtf8 bytes.now) }
    {
        let text = Text::text(alloc, bytes)?;
        Ok(WorkerId { text })
    }

    /// The bytes.
    pub fn bytes(&self) -> &[u8]
        ensures { result.now ≡ self.now }
    {
        self.text.bytes()
    }

    /// The id as Rust's text.
    pub fn as_str(&self) -> &str
        ensures same { result.now ≡ self.now }
        ensures utf8 { IsUtf8 self.now }
    {
        self.text.as_str()
    }

    /// Which of two ids is first in the order of their bytes.
    pub fn cmp(&self, other: &WorkerId) -> Ordering
        ensures { result ≡ slice_cmp nat_cmp self.now other.now }
    {
        self.text.cmp(&other.text)
    }
}

impl From<Text> for WorkerId {
    ghost from_gives = { λ text id. id ≡ text };

    /// The id that a text spells. It takes no memory.
    fn from(text: Text) -> WorkerId {
        WorkerId { text }
    }
}

impl Clone for WorkerId {
    ghost is_clone = { λ old new. new ≡ old };

    fn clone(&self) -> Result<WorkerId, AllocError> {
        let text = self.text.clone()?;
        Ok(WorkerId { text })
    }
}

/// A name: of a resource, a family, a parameter or a field.
#[derive(Debug, Drop)]
pub struct Name {
    text: Text,
}

impl Model for Name {
    ghost Value = { List ℕ };

    ghost view = { λ name. name.text };
}

impl Name {
    /// The name that these bytes spell. Any text is one.
    pub fn text(alloc: Global, bytes: &[u8]) -> Result<Name, TextFault>
        ensures same { IfOk result (λ name. name ≡ bytes.now) }
        ensures utf8 { IfOk result (λ name. IsUtf8 name) }
        ensures not_utf8 { IsErrOf result TextFault.NotUtf8 ↔ (¬ IsUtf8 bytes.now) }
    {
        let text = Text::text(alloc, bytes)?;
        Ok(Name { text })
    }

    /// The bytes.
    pub fn bytes(&self) -> &[u8]
        ensures { result.now ≡ self.now }
    {
        self.text.bytes()
    }

    /// The name as Rust's text.
    pub fn as_str(&self) -> &str
        ensures same { result.now ≡ self.now }
        ensures utf8 { IsUtf8 self.now }
    {
        self.text.as_str()
    }

    /// Which of two names is first in the order of their bytes.
    pub fn cmp(&self, other: &Name) -> Ordering
        ensures { result ≡ slice_cmp nat_cmp self.now other.now }
    {
        self.text.cmp(&other.text)
    }
}

impl From<Text> for Name {
    ghost from_gives = { λ text name. name ≡ text };

    /// The name that a text spells. It takes no memory.
    fn from(text: Text) -> Name {
        Name { text }
    }
}

impl Clone for Name {
    ghost is_clone = { λ old new. new ≡ old };

    fn clone(&self) -> Result<Name, AllocError> {
        let text = self.text.clone()?;
        Ok(Name { text })
    }
}

#[cfg(test)]
mod tests {
    use super::*;
    use std::test::Fail;

    #[test]
    fn keep_their_bytes(rt: HostRuntime) -> Result<(), Fail> {
        let name = Name::text(rt.alloc(), b"cpu")?.clone()?;
        let task = TaskId::text(rt.alloc(), b"Sum_1_2")?.clone()?;
        let worker = WorkerId::text(rt.alloc(), b"w1")?.clone()?;
        assert_eq!(rt;
            (name.as_str(), task.as_str(), worker.as_str()),
            ("cpu", "Sum_1_2", "w1")
        );
        Ok(())
    }
}
