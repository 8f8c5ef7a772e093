//! The kinds of markers, and what each holds.

ghost use Rattle.std.specs.Prelude.{◌≡◌, ◌≢◌, MatchOption, OnOk, IfErr};
ghost use Rattle.pb_fields.specs.Message.{IsWrongOrMemory};
ghost use Rattle.marker_codec.specs.declared.kind.MarkerKind.{MarkerKind};
ghost use Rattle.marker_codec.specs.Kinds.{kind_number, kind_rows, RightPart, WrongPart, RightInSnapshot, WrongInSnapshot};

use crate::table::{
    CLUSTER_PARTS, LOCAL_MESSAGE_ID, POSITION_PARTS, REQUEST, REQUEST_ROWS, RESPONSE,
    RESPONSE_ROWS, SNAPSHOT, SNAPSHOT_ROWS, UPDATE, UPDATE_ROWS,
};
use pb_fields::embedded::{Embedded, Unread};
use pb_fields::message::{MessageFault, Row};
use std::alloc::Global;

/// What a marker is.
#[derive(Clone, Copy, PartialEq, Eq)]
pub enum MarkerKind {
    /// ReplicatedSubscriptionsSnapshotRequest, number 10.
    Request,
    /// ReplicatedSubscriptionsSnapshotResponse, number 11.
    Response,
    /// ReplicatedSubscriptionsSnapshot, number 12.
    Snapshot,
    /// ReplicatedSubscriptionsUpdate, number 13.
    Update,
}

impl MarkerKind {
    /// The number that the metadata of a marker's entry names (PulsarMarkers.proto's MarkerType, as known and not looked up).
    pub fn number(self) -> u64
        ensures { result ≡ kind_number self }
    {
        match self {
            MarkerKind::Request => REQUEST,
            MarkerKind::Response => RESPONSE,
            MarkerKind::Snapshot => SNAPSHOT,
            MarkerKind::Update => UPDATE,
        }
    }

    /// The kind of a number, where it is one of the four.
    pub fn from_number(number: u64) -> Option<MarkerKind>
        ensures { MatchOption result ((k : MarkerKind) → number ≢ kind_number k) (λ k. number ≡ kind_number k) }
    {
        match number {
            REQUEST => Some(MarkerKind::Request),
            RESPONSE => Some(MarkerKind::Response),
            SNAPSHOT => Some(MarkerKind::Snapshot),
            UPDATE => Some(MarkerKind::Update),
            _ => None,
        }
    }

    /// The fields of a marker of the kind.
    pub fn rows(self) -> &'static [Row]
        ensures { result.now ≡ kind_rows self }
    {
        match self {
            MarkerKind::Request => REQUEST_ROWS,
            MarkerKind::Response => RESPONSE_ROWS,
            MarkerKind::Snapshot => SNAPSHOT_ROWS,
            MarkerKind::Update => UPDATE_ROWS,
        }
    }
}

impl Embedded for MarkerKind {
    ghost right = { λ k n. RightPart k n };

    ghost wrong = { λ k n. WrongPart k n };

    fn judge(&self, alloc: Global, number: u32, content: &[u8]) -> Result<(), MessageFault> {
        match self {
            MarkerKind::Request => Unread.judge(alloc, number, content),
            MarkerKind::Response => CLUSTER_PARTS.judge(alloc, number, content),
            MarkerKind::Snapshot => judge_in_snapshot(alloc, number, content),
            MarkerKind::Update => CLUSTER_PARTS.judge(alloc, number, content),
        }
    }
}

/// Judges what a snapshot holds, by the number of its field.
fn judge_in_snapshot(alloc: Global, number: u32, content: &[u8]) -> Result<(), MessageFault>
    ensures right { OnOk result (RightInSnapshot number content.now) }
    ensures wrong { IfErr result (IsWrongOrMemory (WrongInSnapshot number content.now)) }
{
    if number == LOCAL_MESSAGE_ID {
        return POSITION_PARTS.judge(alloc, number, content);
    }
    CLUSTER_PARTS.judge(alloc, number, content)
}
