// Values of bodies.
ghost use Rattle.std.specs.Prelude.{◌≡◌, IfOk};
ghost use Rattle.std.specs.Prelude.{option_map};
ghost use Rattle.serde_json.specs.View.{view};
ghost use Rattle.office_policy.specs.CommandBodies.{plain_text, IfBodyHasValue};
ghost use Rattle.office_requests.specs.Bodies.{json_in, members_count, number_at, place_in, dept_in};
ghost use Rattle.office_requests.specs.Bodies.{text_body, place_body, dept_body};

use exam_terms::limits::{MAX_DEPARTMENT, MAX_NUMBER, TEXT_BYTES};
use exam_terms::{PeriodNo, Place, RoomNo};
use office_policy::Body;
use serde_json::Value;
use std::alloc::{AllocError, Global};

/// Returns a body that is taken unchanged.
pub fn text_body(bytes: &[u8]) -> Body<&[u8]>
    ensures is_text { plain_text result ≡ text_body bytes.now }
    ensures text { IfBodyHasValue result (λ text. text ≡ bytes.entry) }
{
    if bytes.len() > TEXT_BYTES {
        return Body::Long;
    }
    Body::Given(bytes)
}

/// Returns the place of a body like `{"period":1,"room":0}`, with exactly these keys.
pub fn place_body(alloc: Global, bytes: &[u8]) -> Result<Body<Place>, AllocError>
    ensures { IfOk result (λ body. body ≡ place_body bytes.now) }
{
    if bytes.len() > TEXT_BYTES {
        return Ok(Body::Long);
    }
    let Some(value) = json_in(alloc, bytes)? else {
        return Ok(Body::Bad);
    };
    match place_in(&value) {
        Some(place) => Ok(Body::Given(place)),
        None => Ok(Body::Bad),
    }
}

/// Returns the department of a body like `{"dept":3}`, with exactly this key.
pub fn dept_body(alloc: Global, bytes: &[u8]) -> Result<Body<u32>, AllocError>
    ensures { IfOk result (λ body. body ≡ dept_body bytes.now) }
{
    if bytes.len() > TEXT_BYTES {
        return Ok(Body::Long);
    }
    let Some(value) = json_in(alloc, bytes)? else {
        return Ok(Body::Bad);
    };
    match dept_in(&value) {
        Some(dept) => Ok(Body::Given(dept)),
        None => Ok(Body::Bad),
    }
}

// Returns the place that a value describes.
fn place_in(value: &Value) -> Option<Place>
    ensures { result ≡ place_in (view value.now) }
{
    if members_count(value)? != 2 {
        return None;
    }
    let period = PeriodNo::new(number_at(value, "period", MAX_NUMBER)?);
    let room = RoomNo::new(number_at(value, "room", MAX_NUMBER)?);
    Some(Place { period, room })
}

// Returns the department that a value describes.
fn dept_in(value: &Value) -> Option<u32>
    ensures { result ≡ dept_in (view value.now) }
{
    if members_count(value)? != 1 {
        return None;
    }
    number_at(value, "dept", MAX_DEPARTMENT)
}

// Returns how many members an object has.
fn members_count(value: &Value) -> Option<usize>
    ensures { result ≡ members_count (view value.now) }
{
    Some(value.as_object()?.len())
}

// Returns the number under a key, if it is a whole one of at most this much.
fn number_at(value: &Value, key: &str, most: u32) -> Option<u32>
    ensures { result ≡ number_at key.now most (view value.now) }
{
    let number = value.get(key).and_then(Value::as_u64)?;
    if number <= u64::from(most) {
        Some(number as u32)
    } else {
        None
    }
}

// Returns the value of the bytes; `None` if they aren't JSON.
fn json_in(alloc: Global, bytes: &[u8]) -> Result<Option<Value>, AllocError>
    ensures { IfOk result (λ value. option_map view value ≡ json_in bytes.now) }
{
    match Value::from_slice(alloc, bytes) {
        Ok(value) => Ok(Some(value)),
        Err(e) => {
            if e.is_memory() {
                Err(AllocError)
            } else {
                Ok(None)
            }
        }
    }
}
