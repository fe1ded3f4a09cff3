//! Lines that tell numbers.

ghost use Rattle.std.specs.Prelude.{◌<◌, ◌++◌, length, codes, decimal};
ghost use Rattle.ft_types.specs.Devices.{Writes};
ghost use Rattle.ft_types.specs.Text.{line};
ghost use Rattle.log_streams.specs.Stores.{numbers};

use ft_types::{Count, Failed, LineBuffer, Sink, Term, write_all};

/// Writes three texts, one behind the other.
pub fn write_three<W: Sink>(
    first: &[u8],
    second: &[u8],
    third: &[u8],
    out: &mut W,
) -> Result<(), Failed>
    ensures { Writes result (W.bytes out.old) (W.bytes out.new) (W.failures out.old) (W.failures out.new) (first.now ++ second.now ++ third.now) }
{
    write_all(out, first)?;
    write_all(out, second)?;
    write_all(out, third)
}

/// Writes a number in decimal, between two texts.
pub fn write_numbered<W: Sink>(
    before: &[u8],
    number: u64,
    after: &[u8],
    out: &mut W,
) -> Result<(), Failed>
    ensures { Writes result (W.bytes out.old) (W.bytes out.new) (W.failures out.old) (W.failures out.new) (before.now ++ decimal number ++ after.now) }
{
    let mut digits = LineBuffer::new();
    digits.push_number(number);
    write_three(before, digits.as_slice(), after, out)
}

/// Writes a line that is too long for one buffer, in two parts.
pub fn write_long_line<W: Sink>(
    front: LineBuffer,
    back: LineBuffer,
    out: &mut W,
) -> Result<(), Failed>
    requires { length back < 96 }
    ensures { Writes result (W.bytes out.old) (W.bytes out.new) (W.failures out.old) (W.failures out.new) (front ++ line back) }
{
    write_all(out, front.as_slice())?;
    back.write(out)
}

/// Writes a number behind a space.
fn write_spaced<W: Sink>(number: u64, out: &mut W) -> Result<(), Failed>
    ensures { Writes result (W.bytes out.old) (W.bytes out.new) (W.failures out.old) (W.failures out.new) (codes " " ++ decimal number) }
{
    let mut text = LineBuffer::new();
    text.push(b" ");
    text.push_number(number);
    write_all(out, text.as_slice())
}

/// Writes terms, each behind a space.
pub(crate) fn write_terms<W: Sink>(terms: &[Term], out: &mut W) -> Result<(), Failed>
    ensures { Writes result (W.bytes out.old) (W.bytes out.new) (W.failures out.old) (W.failures out.new) (numbers terms.now) }
{
    for term in terms {
        write_spaced(u64::from(*term), out)?;
    }
    Ok(())
}

/// Writes counts, each behind a space.
fn write_counts<W: Sink>(counts: &[Count], out: &mut W) -> Result<(), Failed>
    ensures { Writes result (W.bytes out.old) (W.bytes out.new) (W.failures out.old) (W.failures out.new) (numbers counts.now) }
{
    for count in counts {
        write_spaced(*count, out)?;
    }
    Ok(())
}

/// Writes a line of counts behind a text.
pub fn write_counts_line<W: Sink>(head: &[u8], counts: &[Count], out: &mut W) -> Result<(), Failed>
    ensures { Writes result (W.bytes out.old) (W.bytes out.new) (W.failures out.old) (W.failures out.new) (line (head.now ++ numbers counts.now)) }
{
    write_all(out, head)?;
    write_counts(counts, out)?;
    write_all(out, b"\n")
}
