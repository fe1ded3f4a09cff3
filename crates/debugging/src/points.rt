//! Points at which a session stops.

ghost use Rattle.std.specs.Prelude.{◌≡◌, ◌⊎◌, ℕ, List, ◌∷◌, Some, IfOk, OnOk};
ghost use Rattle.moments.specs.declared.points.Point.TheVariants.{Break, Watch};
ghost use Rattle.moments.specs.declared.points.Watched.TheVariants.{Write, Read, Access};
ghost use Rattle.debugging.specs.Asked.{IsRange, HasNone};
ghost use Rattle.moments.specs.declared.points.Point.{Point as point_of_specs};
ghost use Rattle.debugging.specs.Stops.{watched_name};
ghost use Rattle.debugging.specs.Points.{watched_kind, is_same_point, points_without, points_with, has_room, IsPoint};

use crate::numbers::{cut, first_byte, is, read_range};
use ft_types::Memory;
use moments::{Point, Watched};
use plan_lines::Bytes;

/// The number of points that a session has at the most.
pub(crate) const POINT_LIMIT: usize = 256;

/// The point of this kind with these bytes.
fn point_of(kind: u8, bytes: Bytes) -> Option<Point>
    ensures breaks { (kind ≡ 48) ⊎ (kind ≡ 49) → result ≡ Some (Break bytes.first) }
    ensures writes { kind ≡ 50 → result ≡ Some (Watch Write bytes) }
    ensures reads { kind ≡ 51 → result ≡ Some (Watch Read bytes) }
    ensures accesses { kind ≡ 52 → result ≡ Some (Watch Access bytes) }
{
    match kind {
        b'0' | b'1' => Some(Point::Break(bytes.first)),
        b'2' => Some(Point::Watch(Watched::Write, bytes)),
        b'3' => Some(Point::Watch(Watched::Read, bytes)),
        b'4' => Some(Point::Watch(Watched::Access, bytes)),
        _ => None,
    }
}

/// `,A,L`, or that and more behind a `;`.
fn read_bytes(text: &[u8]) -> Option<Bytes>
    ensures { (range : List ℕ) (address many : ℕ) → text.now ≡ 44 ∷ range → HasNone 59 range → IsRange range address many →
        result ≡ Some (record { first = address; length = many }) }
{
    let (none, rest) = cut(text, b',');
    let (range, _) = cut(rest, b';');
    if is(none, b"") {
        return read_range(range);
    }
    None
}

/// `0,A,K` and `1,A,K` for a breakpoint, `2,A,L` to `4,A,L` for bytes that are watched.
pub(crate) fn read_point(text: &[u8]) -> Option<Point>
    ensures { (point : point_of_specs) → IsPoint text.now point → result ≡ Some point }
{
    let Some((kind, rest)) = first_byte(text) else {
        return None;
    };
    let bytes = read_bytes(rest);
    match bytes {
        Some(bytes) => point_of(kind, bytes),
        None => None,
    }
}

/// gdb's number of what is watched so.
fn kind_of(watched: Watched) -> u8
    ensures { result ≡ watched_kind watched }
{
    match watched {
        Watched::Write => b'2',
        Watched::Read => b'3',
        Watched::Access => b'4',
    }
}

fn is_same(one: Point, other: Point) -> bool
    ensures { result ≡ is_same_point one other }
{
    match (one, other) {
        (Point::Break(address), Point::Break(other)) => address == other,
        (Point::Watch(watched, bytes), Point::Watch(other, others)) => {
            kind_of(watched) == kind_of(other)
                && bytes.first == others.first
                && bytes.length == others.length
        }
        _ => false,
    }
}

/// Takes a point away, where it is there.
pub(crate) fn drop_point(points: &mut Vec<Point>, point: Point)
    ensures { points.new.items ≡ points_without point points.old.items }
{
    points.retain(|other| !is_same(*other, point));
}

/// Puts a point behind the others, where there is room. Whether there was.
pub(crate) fn put_point(points: &mut Vec<Point>, point: Point) -> Result<bool, Memory>
    ensures room { IfOk result (λ is_put. is_put ≡ has_room point points.old.items) }
    ensures put { OnOk result (points.new.items ≡ points_with point points.old.items) }
{
    drop_point(points, point);
    if points.len() >= POINT_LIMIT {
        return Ok(false);
    }
    points.push(point)?;
    Ok(true)
}

/// The name by which gdb knows a point that watches so.
pub(crate) fn watched_name(watched: Watched) -> &'static [u8]
    ensures { result.now ≡ watched_name watched }
{
    match watched {
        Watched::Write => b"watch:",
        Watched::Read => b"rwatch:",
        Watched::Access => b"awatch:",
    }
}
