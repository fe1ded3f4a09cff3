//! Points at which a timeline stops.

ghost use Rattle.std.specs.Prelude.{◌≡◌, ◌↔◌, All, Some, IsTrue, IfSome, IfNone, slice_get};
ghost use Rattle.moments.specs.declared.points.Point.{Point as point_of_specs};
ghost use Rattle.moments.specs.declared.points.Point.TheVariants.{Watch};
ghost use Rattle.moments.specs.Points.{Breaks, IsRead, IsWrite, Watches};

use crate::access::overlap;
use plan_lines::{Access, Bytes};

/// What is watched.
#[derive(Clone, Copy)]
pub enum Watched {
    /// That bytes are read.
    Read,
    /// That bytes are written.
    Write,
    /// Either.
    Access,
}

/// Where a timeline stops.
#[derive(Clone, Copy)]
pub enum Point {
    /// Where the step that comes next is one of a hart whose pc this is.
    Break(u32),
    /// Where a step uses one of these bytes so.
    Watch(Watched, Bytes),
}

/// Why a timeline stopped.
#[derive(Clone, Copy, PartialEq, Eq)]
pub enum Stop {
    /// The point with this number holds.
    At(usize),
    /// The line ends.
    End,
    /// The line begins.
    Begin,
}

/// Whether a step at this pc is at the point.
pub(crate) fn breaks(point: Point, pc: u32) -> bool
    ensures { IsTrue result ↔ Breaks point pc }
{
    match point {
        Point::Break(address) => pc == address,
        Point::Watch(_, _) => false,
    }
}

fn watches_reads(watched: Watched) -> bool
    ensures { IsTrue result ↔ IsRead watched }
{
    match watched {
        Watched::Read | Watched::Access => true,
        Watched::Write => false,
    }
}

fn watches_writes(watched: Watched) -> bool
    ensures { IsTrue result ↔ IsWrite watched }
{
    match watched {
        Watched::Write | Watched::Access => true,
        Watched::Read => false,
    }
}

/// Whether a step that uses bytes so is watched.
fn is_watched(watched: Watched, bytes: Bytes, access: Access) -> bool
    ensures { IsTrue result ↔ Watches (Watch watched bytes) access }
{
    match access {
        Access::Nothing => false,
        Access::Reads(those) => watches_reads(watched) && overlap(bytes, those),
        Access::Writes(those) => watches_writes(watched) && overlap(bytes, those),
        Access::Changes(those) => overlap(bytes, those),
    }
}

/// Whether a step that uses bytes so is watched by the point.
pub(crate) fn watches(point: Point, access: Access) -> bool
    ensures { IsTrue result ↔ Watches point access }
{
    match point {
        Point::Break(_) => false,
        Point::Watch(watched, bytes) => is_watched(watched, bytes, access),
    }
}

/// The first point that a step at this pc is at.
pub(crate) fn first_break(points: &[Point], pc: u32) -> Option<usize>
    ensures some { IfSome result (λ n. (point : point_of_specs) × (slice_get points.now n ≡ Some point) × Breaks point pc) }
    ensures none { IfNone result (All (λ point. Breaks point pc → ⊥) points.now) }
{
    for number in 0..points.len() {
        if breaks(points[number], pc) {
            return Some(number);
        }
    }
    None
}

/// The first point that watches a step that uses bytes so.
pub(crate) fn first_watch(points: &[Point], access: Access) -> Option<usize>
    ensures some { IfSome result (λ n. (point : point_of_specs) × (slice_get points.now n ≡ Some point) × Watches point access) }
    ensures none { IfNone result (All (λ point. Watches point access → ⊥) points.now) }
{
    for number in 0..points.len() {
        if watches(points[number], access) {
            return Some(number);
        }
    }
    None
}
