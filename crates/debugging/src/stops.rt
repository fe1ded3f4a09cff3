//! Why a session stands where it does.

ghost use Rattle.std.specs.Prelude.{◌≡◌, ◌++◌, IfOk, OnOk, decimal};
ghost use Rattle.debugging.specs.Stops.{thread_text, point_text, reason_text, stop_text};

use crate::points::watched_name;
use ft_types::{Hart, LineBuffer, Memory, word_text};
use moments::Point;
use std::alloc::Global;

/// Why a session stands where it does.
#[derive(Clone, Copy)]
pub(crate) enum Reason {
    /// It was led there.
    Led,
    /// A point holds.
    Point(Point),
    /// The line begins.
    Begin,
    /// The line ends, or the hart takes no more steps.
    End,
}

/// Puts bytes.
pub(crate) fn put(text: &mut Vec<u8>, bytes: &[u8]) -> Result<(), Memory>
    ensures { OnOk result (text.new.items ≡ text.old.items ++ bytes.now) }
{
    text.extend_from_slice(bytes)?;
    Ok(())
}

/// Puts a number.
pub(crate) fn put_number(text: &mut Vec<u8>, number: u64) -> Result<(), Memory>
    ensures { OnOk result (text.new.items ≡ text.old.items ++ decimal number) }
{
    let mut digits = LineBuffer::new();
    digits.push_number(number);
    text.extend_from_slice(digits.as_slice())?;
    Ok(())
}

/// Puts the number of a hart's thread, to the base 16.
pub(crate) fn put_thread(text: &mut Vec<u8>, hart: Hart) -> Result<(), Memory>
    ensures { OnOk result (text.new.items ≡ text.old.items ++ thread_text hart) }
{
    let digits = word_text(u32::from(hart.number()) + 1);
    text.extend_from_slice(&digits[6..])?;
    Ok(())
}

/// Puts what names a point.
fn put_point(text: &mut Vec<u8>, point: Point) -> Result<(), Memory>
    ensures { OnOk result (text.new.items ≡ text.old.items ++ point_text point) }
{
    match point {
        Point::Break(_) => text.extend_from_slice(b"swbreak:;")?,
        Point::Watch(watched, bytes) => {
            text.extend_from_slice(watched_name(watched))?;
            text.extend_from_slice(&word_text(bytes.first))?;
            text.push(b';')?;
        }
    }
    Ok(())
}

/// Puts why a session stands.
fn put_reason(text: &mut Vec<u8>, reason: Reason) -> Result<(), Memory>
    ensures { OnOk result (text.new.items ≡ text.old.items ++ reason_text reason) }
{
    match reason {
        Reason::Point(point) => put_point(text, point)?,
        Reason::Begin => text.extend_from_slice(b"replaylog:begin;")?,
        Reason::End => text.extend_from_slice(b"replaylog:end;")?,
        Reason::Led => {}
    }
    Ok(())
}

/// What gdb is told where a hart stands for this reason.
pub(crate) fn stop_text(alloc: Global, hart: Hart, reason: Reason) -> Result<Vec<u8>, Memory>
    ensures { IfOk result (λ text. text.items ≡ stop_text hart reason) }
{
    let mut text = b"T05".to_vec(alloc)?;
    put_reason(&mut text, reason)?;
    text.extend_from_slice(b"thread:")?;
    put_thread(&mut text, hart)?;
    text.push(b';')?;
    Ok(text)
}
