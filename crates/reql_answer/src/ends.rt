// What stands after the results of an answer, written as bytes.
ghost use Rattle.std.specs.Prelude.{◌≡◌, ◌≤◌, ◌++◌, drop, codes, decimal, option_map, OnOk, false};
ghost use Rattle.serde_json.specs.Written.{comma_if};
ghost use Rattle.reql_answer.specs.Body.{stamped_by};
ghost use Rattle.reql_answer.specs.Ending.{point_text, points_text, stamp_text, kind_text, end_text};

use crate::stamp::Stamp;
use itoa::write_digits;
use reql_datum::Point;
use reql_spell::{append_from, append_item, put_byte};
use std::alloc::AllocError;

// How many digits the longest number has.
pub(crate) const DIGITS: usize = 20;

// The bytes of the longest point and a comma, and more: three numbers, two brackets and three commas.
const POINT_BYTES: usize = 72;

// Puts a point at the end, and returns where it starts.
fn put_point(text: &mut [u8; POINT_BYTES], point: Point) -> usize
    ensures start { (1 ≤ result) × (result ≤ 72) }
    ensures written { drop result text.new ≡ point_text point }
{
    let after = put_byte(text, POINT_BYTES, b']');
    let stamp = write_digits(point.stamp, text, after);
    let between = put_byte(text, stamp, b',');
    let place = write_digits(point.place, text, between);
    let before = put_byte(text, place, b',');
    let slot = write_digits(u64::from(point.slot), text, before);
    put_byte(text, slot, b'[')
}

// A point, with a comma before it where another stands there.
fn write_point(out: &mut Vec<u8>, later: bool, point: Point) -> Result<(), AllocError>
    ensures { OnOk result (out.new.items ≡ out.old.items ++ (comma_if later ++ point_text point)) }
{
    let mut text = [0; POINT_BYTES];
    let start = put_point(&mut text, point);
    Ok(append_item(out, later, &mut text, start)?)
}

fn write_points(out: &mut Vec<u8>, points: &[Point]) -> Result<(), AllocError>
    ensures { OnOk result (out.new.items ≡ out.old.items ++ points_text false points.now) }
{
    let mut place = 0;
    while let Some(point) = points.get(place) {
        write_point(out, place > 0, *point)?;
        place += 1;
    }
    Ok(())
}

// The catalogue's place, and what stands around it.
fn write_catalogue(out: &mut Vec<u8>, place: u64) -> Result<(), AllocError>
    ensures { OnOk result (out.new.items
        ≡ out.old.items ++ codes ",\"s\":{\"c\":" ++ decimal place ++ codes ",\"t\":[") }
{
    let mut text = *b"00000000000000000000,\"t\":[";
    let start = write_digits(place, &mut text, DIGITS);
    out.extend_from_slice(b",\"s\":{\"c\":")?;
    Ok(append_from(out, &text, start)?)
}

fn write_stamp(out: &mut Vec<u8>, stamp: Stamp<'_>) -> Result<(), AllocError>
    ensures { OnOk result (out.new.items ≡ out.old.items ++ stamp_text (stamped_by stamp.entry)) }
{
    write_catalogue(out, stamp.catalogue)?;
    write_points(out, stamp.points)?;
    Ok(out.extend_from_slice(b"]}")?)
}

fn write_kind(out: &mut Vec<u8>, kind: u8) -> Result<(), AllocError>
    ensures { OnOk result (out.new.items ≡ out.old.items ++ kind_text kind) }
{
    let mut text = *b"00000000000000000000}";
    let start = write_digits(u64::from(kind), &mut text, DIGITS);
    out.extend_from_slice(b",\"t\":")?;
    Ok(append_from(out, &text, start)?)
}

/// Appends what stands after the results of an answer: the points that it names, where it names any,
/// its type and the closing bracket.
pub fn write_end(out: &mut Vec<u8>, kind: u8, stamp: Option<Stamp<'_>>) -> Result<(), AllocError>
    ensures { OnOk result (out.new.items
        ≡ out.old.items ++ end_text kind (option_map stamped_by stamp.entry)) }
{
    let Some(stamp) = stamp else {
        return Ok(write_kind(out, kind)?);
    };
    write_stamp(out, stamp)?;
    Ok(write_kind(out, kind)?)
}
