//! What a node's line for whoever looks at it says of the node's state.
ghost use Rattle.std.specs.Prelude.{◌≡◌, IfOk};
ghost use Rattle.serde_json.specs.View.{view};
ghost use Rattle.status_readings.specs.PremisesText.{member_number};
ghost use Rattle.status_readings.specs.LookSaid.{member_truth};
ghost use Rattle.status_readings.specs.StandingSaid.{in_range, member_id, member_or_null, number_or_null};
ghost use Rattle.status_readings.specs.StandingSaid.{standing_said, line_standing};

use crate::looks::{member_number, member_truth, value_of};
use node_texts::StatusLine;
use serde_json::Value;
use std::alloc::{AllocError, Global};

/// What a line says of the state of its node, if it is a JSON object with all that a status line
/// says.
///
/// # Errors
/// If memory runs out.
pub fn read_standing(alloc: Global, line: &str) -> Result<Option<StatusLine>, AllocError>
    ensures { IfOk result (λ said. said ≡ line_standing line.now) }
{
    let value = value_of(alloc, line)?;
    Ok(value.as_ref().and_then(standing_said))
}

/// What a value says of the state of a node.
fn standing_said(value: &Value) -> Option<StatusLine>
    ensures { result ≡ standing_said (view value.now) }
{
    Some(StatusLine {
        node: member_id(value, "node")?,
        distance: member_id(value, "distance")?,
        parent: member_or_null(value, "parent")?,
        token: member_truth(value, "token")?,
        lent: member_or_null(value, "lent")?,
        waiting: member_id(value, "waiting")?,
    })
}

/// The number below 65536 that is a member of an object.
fn member_id(object: &Value, name: &str) -> Option<u16>
    ensures { result ≡ member_id name.now (view object.now) }
{
    in_range(member_number(object, name)?)
}

/// The number, if it is below 65536.
fn in_range(number: u64) -> Option<u16>
    ensures { result ≡ in_range number }
{
    if number < 65_536 {
        Some(number as u16)
    } else {
        None
    }
}

/// The number below 65536, or null, that is a member of an object.
fn member_or_null(object: &Value, name: &str) -> Option<Option<u16>>
    ensures { result ≡ member_or_null name.now (view object.now) }
{
    number_or_null(object.get(name)?)
}

/// The value, if it is null or a number below 65536.
fn number_or_null(value: &Value) -> Option<Option<u16>>
    ensures { result ≡ number_or_null (view value.now) }
{
    if value.is_null() {
        return Some(None);
    }
    match in_range(value.as_u64()?) {
        Some(number) => Some(Some(number)),
        None => None,
    }
}
