//! What a picture of a log shows.

ghost use Rattle.std.specs.Prelude.{◌<◌, length};

use crate::canvas::{Canvas, Place};
use crate::marks::Marks;
use crate::scale::{LEFT, Scale, WIDTH};
use fragment_codec::{Fragment, Frame, Key};
use ft_types::{Count, HART_ROW, Hart, Memory};
use guest_image::Machine;
use hart_replay::{Plan, PlannedLeg};
use log_join::{Found, Store};
use std::alloc::Global;
use std::array;
use std::option::Option;
use std::result::Result;

/// How what is drawn looks.
const STYLE: &[u8] =
    b"text { font-family: sans-serif; font-size: 12px; fill: #222 } .small { font-size: 10px; fill: #555 }
line { stroke-width: 1 } .row { stroke: #bbb } .term { stroke: #7a1fa2; stroke-dasharray: 3 2 } .edge { stroke: #b36b00; stroke-width: 0.6 }
.odd, .even { stroke: #1f4e9c; stroke-width: 5 } .even { stroke: #7a1fa2 } .in { stroke: #1f4e9c } .out { stroke: #1b7a34 } .held { stroke: #1b7a34; stroke-width: 3 }
";

/// How far inputs stand above their hart, and outputs below it.
const MARK: u64 = 9;

/// How many steps the longest of the harts has.
fn longest(plan: &Plan) -> Count {
    let mut steps = 0;
    for leg in plan.legs() {
        for count in leg.ends.as_slice() {
            steps = steps.max(*count);
        }
    }
    steps
}

/// The place above, where there is room.
fn above(place: Place) -> Place {
    Place {
        x: place.x,
        y: place.y.saturating_sub(MARK),
    }
}

fn below(place: Place) -> Place {
    Place {
        x: place.x,
        y: place.y.saturating_add(MARK),
    }
}

/// The lines of all harts, with their names and how many steps each has.
fn draw_harts(canvas: &mut Canvas, scale: &Scale, machine: &Machine) -> Result<(), Memory> {
    for number in 0..machine.harts() {
        let hart = Hart::new(number);
        let from = scale.at(hart, 0);
        let to = scale.at(hart, scale.steps);
        canvas.line(b"row", from, to)?;
        canvas.label(
            b"name",
            Place { x: 8, y: from.y },
            b"hart",
            u64::from(number),
        )?;
        let behind = Place {
            x: LEFT + WIDTH + 8,
            y: from.y,
        };
        canvas.label(b"small", behind, b"steps", machine.hart(hart).count())?;
    }
    Ok(())
}

/// The steps of a term, and where it begins.
fn draw_steps(canvas: &mut Canvas, scale: &Scale, leg: &PlannedLeg) -> Result<(), Memory> {
    let class: &[u8] = if leg.term % 2 == 0 { b"even" } else { b"odd" };
    let mut before: Option<Place> = None;
    for number in 0..leg.base.harts() {
        let hart = Hart::new(number);
        let from = scale.at(hart, leg.base.get(hart));
        canvas.line(class, from, scale.at(hart, leg.ends.count_of(hart)))?;
        canvas.line(b"term", before.unwrap_or(above(above(from))), from)?;
        before = Some(from);
    }
    let first = scale.at(Hart::new(0), leg.base.count_of(Hart::new(0)));
    canvas.label(b"small", above(above(first)), b"term", u64::from(leg.term))
}

/// Which steps of a hart wait for which of others.
fn draw_edges(
    canvas: &mut Canvas,
    scale: &Scale,
    leg: &PlannedLeg,
    hart: Hart,
) -> Result<(), Memory> {
    let mut marks: [Marks; HART_ROW] = array::from_fn(|_| Marks::new(b"edge"));
    for edge in leg.edges.of_hart(hart) {
        let from = scale.at(edge.other, edge.after);
        let to = scale.at(hart, edge.at);
        marks[edge.other.index()].draw(canvas, from, to)?;
    }
    Ok(())
}

/// What a hart was given.
fn draw_inputs(
    canvas: &mut Canvas,
    scale: &Scale,
    leg: &PlannedLeg,
    hart: Hart,
) -> Result<(), Memory> {
    let mut marks = Marks::new(b"in");
    let (counts, _inputs) = leg.inputs.of_hart(hart);
    for count in counts {
        let at = scale.at(hart, *count);
        marks.draw(canvas, above(at), at)?;
    }
    Ok(())
}

/// What a hart put out.
fn draw_outputs(
    canvas: &mut Canvas,
    scale: &Scale,
    machine: &Machine,
    hart: Hart,
) -> Result<(), Memory>
    requires { hart < length machine.now.harts }
{
    let mut marks = Marks::new(b"out");
    for (count, _word) in machine.hart(hart).outputs() {
        let at = scale.at(hart, *count);
        marks.draw(canvas, below(at), at)?;
    }
    Ok(())
}

fn draw_leg(canvas: &mut Canvas, scale: &Scale, leg: &PlannedLeg) -> Result<(), Memory> {
    draw_steps(canvas, scale, leg)?;
    for number in 0..leg.base.harts() {
        let hart = Hart::new(number);
        draw_edges(canvas, scale, leg, hart)?;
        draw_inputs(canvas, scale, leg, hart)?;
    }
    Ok(())
}

/// The fragment with the key, where one content came.
fn fragment_at(store: &Store, key: Key) -> Option<&Fragment> {
    match store.get(key) {
        Found::One(Frame::Log(fragment)) => Some(fragment),
        _ => None,
    }
}

/// What a stream holds of each hart.
fn draw_stream(
    alloc: Global,
    canvas: &mut Canvas,
    scale: &Scale,
    number: u64,
    store: &Store,
) -> Result<(), Memory> {
    let first = scale.stored(number, Hart::new(0), 0);
    canvas.label(
        b"small",
        Place {
            x: 8,
            y: first.y.saturating_add(4),
        },
        b"stream",
        number,
    )?;
    let mut marks: [Marks; HART_ROW] = array::from_fn(|_| Marks::new(b"held"));
    for key in &store.keys(alloc)? {
        if let Some(fragment) = fragment_at(store, *key) {
            let from = scale.stored(number, key.hart, fragment.from());
            let to = scale.stored(number, key.hart, fragment.to());
            marks[key.hart.index()].draw(canvas, from, to)?;
        }
    }
    Ok(())
}

/// The picture of a log: what its plan asks of each hart, what the machine to which that leads put out, and what each stream of the log holds. Marks that would
/// stand at one place are one. Memory is its only fault.
pub fn draw_log(
    alloc: Global,
    plan: &Plan,
    machine: &Machine,
    streams: &[Store],
) -> Result<Vec<u8>, Memory> {
    let scale = Scale {
        harts: machine.harts(),
        steps: longest(plan),
    };
    let many = streams.len() as u64;
    let width = LEFT + WIDTH + 130;
    let mut canvas = Canvas::new(alloc, width, scale.height(many), STYLE)?;
    draw_harts(&mut canvas, &scale, machine)?;
    for leg in plan.legs() {
        draw_leg(&mut canvas, &scale, leg)?;
    }
    for number in 0..machine.harts() {
        draw_outputs(&mut canvas, &scale, machine, Hart::new(number))?;
    }
    for number in 0..streams.len() {
        draw_stream(alloc, &mut canvas, &scale, number as u64, &streams[number])?;
    }
    canvas.end()
}
