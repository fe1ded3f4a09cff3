//! Numbers put before a place in bytes: of numbers of the same hundreds only the last two digits are formed each time.

ghost use Rattle.std.specs.Prelude.{◌≡◌, ◌+◌, ◌*◌, ◌/◌, ◌%◌, ◌<◌, ◌≤◌, ◌∷◌, ◌++◌, length, drop, decimal, IsTrue};
ghost use Rattle.guest_image.specs.machinery.Fronts.{IsFront, AreFronts};

use ft_types::{put_before, put_number_before};

/// Hundreds have at most so many digits.
const FRONT: usize = 20;

/// All numbers of so many hundreds are in range, below this.
const HUNDREDS_LIMIT: u64 = 1 << 57;

/// The two digits of each number below 100.
static PAIRS: [u8; 200] =
    *b"00010203040506070809101112131415161718192021222324252627282930313233343536373839404142434445464748495051525354555657585960616263646566676869707172737475767778798081828384858687888990919293949596979899";

/// Puts the two digits of a number so that they end at `end`, and says where they start.
#[inline(always)]
fn put_pair_before(bytes: &mut [u8], end: usize, number: usize) -> usize
    requires number { number < 100 }
    requires room { 2 ≤ end }
    requires end { end ≤ length bytes.old }
    ensures start { result + 2 ≡ end }
    ensures written { drop result bytes.new ≡ (48 + number / 10) ∷ (48 + number % 10) ∷ drop end bytes.old }
{
    let place = number * 2;
    let (tens, ones) = (PAIRS[place], PAIRS[place + 1]);
    bytes[end - 2] = tens;
    bytes[end - 1] = ones;
    end - 2
}

/// What the hundred numbers from `first` on have before their last two digits, at the end of a text.
#[derive(Drop)]
pub(crate) struct Front {
    text: [u8; FRONT],
    from: usize,
    first: u64,
}

impl Front {
    /// The front of the numbers from 100 on.
    fn new() -> Front
        ensures { IsFront result }
    {
        let mut front = Front {
            text: [0; FRONT],
            from: FRONT,
            first: 0,
        };
        front.begin(1);
        front
    }

    /// Becomes the front of the numbers of so many hundreds.
    fn begin(&mut self, hundreds: u64)
        requires { (0 < hundreds) × (hundreds < HUNDREDS_LIMIT) }
        ensures front { IsFront self.new }
        ensures first { self.new.first ≡ hundreds * 100 }
    {
        self.from = put_number_before(&mut self.text, FRONT, hundreds);
        self.first = hundreds * 100;
    }

    /// Becomes the front of a number. Whether one has been formed: numbers without hundreds and the greatest have none.
    #[cold]
    fn follow(&mut self, number: u64) -> bool
        requires { IsFront self.old }
        ensures front { IsFront self.new }
        ensures followed { IsTrue result → (self.new.first ≤ number) × (number < self.new.first + 100) }
    {
        let hundreds = number / 100;
        if hundreds == 0 || hundreds >= HUNDREDS_LIMIT {
            return false;
        }
        self.begin(hundreds);
        true
    }

    /// Gets ready for a number. Whether it has its front then.
    #[inline(always)]
    fn is_ready(&mut self, number: u64) -> bool
        requires { IsFront self.old }
        ensures front { IsFront self.new }
        ensures ready { IsTrue result → (self.new.first ≤ number) × (number < self.new.first + 100) }
    {
        if number.wrapping_sub(self.first) < 100 {
            return true;
        }
        self.follow(number)
    }

    /// Puts the hundreds so that they end at `end`, and says where they start. All of the text is put, which takes fewer instructions, and a
    /// copy of it, which surely lies elsewhere.
    #[inline(always)]
    fn put_text(&self, bytes: &mut [u8], end: usize) -> usize
        requires from { self.now.from ≤ FRONT }
        requires room { FRONT ≤ end }
        requires end { end ≤ length bytes.old }
        ensures start { result + FRONT ≡ end + self.now.from }
        ensures written { drop result bytes.new ≡ drop self.now.from self.now.text ++ drop end bytes.old }
    {
        let text = self.text;
        let start = put_before(bytes, end, &text);
        start + self.from
    }

    /// Puts a number so that it ends at `end`, and says where it starts.
    #[inline(always)]
    pub(crate) fn put(&mut self, bytes: &mut [u8], end: usize, number: u64) -> usize
        requires front { IsFront self.old }
        requires room { 22 ≤ end }
        requires end { end ≤ length bytes.old }
        ensures front { IsFront self.new }
        ensures start { (result ≤ end) × (end ≤ result + 22) }
        ensures written { drop result bytes.new ≡ decimal number ++ drop end bytes.old }
    {
        if !self.is_ready(number) {
            return put_number_before(bytes, end, number);
        }
        let at = put_pair_before(bytes, end, (number - self.first) as usize);
        self.put_text(bytes, at)
    }
}

/// The fronts of outputs' numbers and of their steps.
#[derive(Drop)]
pub(crate) struct Fronts {
    pub(crate) number: Front,
    pub(crate) step: Front,
}

impl Fronts {
    /// Those of the first numbers that have any.
    pub(crate) fn new() -> Fronts
        ensures { AreFronts result }
    {
        Fronts {
            number: Front::new(),
            step: Front::new(),
        }
    }
}
