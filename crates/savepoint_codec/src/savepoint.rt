//! What a savepoint holds.

ghost use Rattle.std.specs.Prelude.{◌≡◌};

use crate::entries::Entries;
use aggregates::Kind;
use plain_data::Items;
use plan_model::Uid;
use std::marker::Model;

/// How many entries of a partition were read, and its watermark there.
#[derive(Clone, Copy, Debug, PartialEq, Eq)]
pub struct SavedPartition {
    pub offset: u64,
    pub watermark: i64,
}

/// A source's partitions, in order.
#[derive(Debug, Drop)]
pub struct SavedSource {
    pub uid: Uid,
    pub partitions: Items<SavedPartition>,
}

/// What stands in the windows of a key group, in the order of start and key.
#[derive(Debug, Drop)]
pub struct SavedGroup {
    pub group: u16,
    pub entries: Entries,
}

/// What stands in a savepoint's bytes before its key groups.
#[derive(Debug, Drop)]
pub struct Front {
    pub number: u64,
    pub plan_record: Items<u8>,
    pub max: u16,
    pub sources: Items<SavedSource>,
    pub window_uid: Uid,
    pub kinds: Items<Kind>,
}

/// What a savepoint holds.
#[derive(Debug, Drop)]
pub struct Contents {
    /// How many savepoints the job has made, with this one: at least 1.
    pub number: u64,
    /// The canonical record of the plan.
    pub plan_record: Items<u8>,
    /// How many key groups the plan has.
    pub max: u16,
    /// The sources, ascending by uid.
    pub sources: Items<SavedSource>,
    /// The uid of the window operator.
    pub window_uid: Uid,
    /// The kinds of the window's aggregates.
    pub kinds: Items<Kind>,
    /// The key groups that have entries, ascending.
    pub groups: Items<SavedGroup>,
}

impl Front {
    ghost use Rattle.savepoint_codec.specs.Layout.{contents_of};

    /// What a savepoint holds that begins so, and has these key groups.
    pub fn with_groups(self, groups: Items<SavedGroup>) -> Contents
        ensures { result ≡ contents_of (self, groups) }
    {
        Contents {
            number: self.number,
            plan_record: self.plan_record,
            max: self.max,
            sources: self.sources,
            window_uid: self.window_uid,
            kinds: self.kinds,
            groups,
        }
    }
}

/// A savepoint: contents that have a spelling, by its type.
#[derive(Debug)]
pub struct Savepoint {
    contents: Contents,
}

// By hand, since a proof goes over a derived drop field by field.
impl Drop for Savepoint {
    fn drop(self) {
        let Savepoint { contents: _ } = self;
    }
}

impl Model for Savepoint {
    ghost use Rattle.savepoint_codec.specs.declared.savepoint.Contents.{Contents};
    ghost use Rattle.savepoint_codec.specs.Layout.{IsSavepoint};

    ghost Value = { Contents };

    ghost view = { λ s. s.contents };

    ghost invariant = { λ s. IsSavepoint s.contents };
}

impl Savepoint {
    ghost use Rattle.savepoint_codec.specs.Layout.{IsSavepoint};

    /// The savepoint that holds these.
    pub fn from_contents(contents: Contents) -> Savepoint
        requires { IsSavepoint contents }
        ensures { result ≡ contents }
    {
        Savepoint { contents }
    }

    /// What it holds.
    pub fn contents(&self) -> &Contents
        ensures says { result.now ≡ self.now }
        ensures sound { IsSavepoint self.now }
    {
        &self.contents
    }
}
