// Bytes written straight into a lent buffer, by a pen. Each method writes from the pen's place on and
// leaves the place behind what it wrote; every other byte stays as it was.

#![tactic(auto)]

ghost use Rattle.std.specs.Prelude.{◌≡◌, [], ◌∷◌, ◌-◌, ◌≤◌, length};
ghost use Rattle.sheet_format.specs.Fields.{decimal};
ghost use Rattle.writing.specs.Inner.{ended, last_two, AtStart, RoomFor, Penned};
ghost use Rattle.writing.specs.Inner.HandOut.{HandsOut};

// A lent buffer, and the place in it where the next byte goes.
#[derive(Drop)]
pub struct Pen<'a> {
    out: &'a mut [u8],
    pub at: usize,
}

impl<'a> Pen<'a> {
    // A pen at the start of the buffer.
    pub fn new(out: &'a mut [u8]) -> Pen<'a>
        ensures { AtStart out.entry result }
    {
        Pen { out, at: 0 }
    }

    // How many bytes have room from the pen's place on.
    pub fn left(&self) -> usize
        requires { self.now.at ≤ length self.now.out.now }
        ensures { result ≡ length self.now.out.now - self.now.at }
    {
        self.out.len() - self.at
    }

    pub fn put_byte(&mut self, b: u8)
        requires { RoomFor self.old (b ∷ []) }
        ensures { Penned self.old (b ∷ []) self.new }
    {
        self.out[self.at] = b;
        self.at += 1;
    }

    pub fn put(&mut self, text: &[u8])
        requires { RoomFor self.old text.now }
        ensures { Penned self.old text.now self.new }
    {
        self.at = written::put(text, self.out, self.at);
    }

    // The last two digits of n.
    fn put_two(&mut self, n: u64)
        requires { RoomFor self.old (last_two n) }
        ensures { Penned self.old (last_two n) self.new }
    {
        self.put_byte(48 + (n / 10 % 10) as u8);
        self.put_byte(48 + (n % 10) as u8);
    }

    // The digits of n, two at a time.
    fn put_digits(&mut self, n: u64)
        requires { RoomFor self.old (decimal n) }
        ensures { Penned self.old (decimal n) self.new }
    {
        if n < 10 {
            self.put_byte(48 + n as u8);
            return;
        }
        if n < 100 {
            self.put_two(n);
            return;
        }
        self.put_digits(n / 100);
        self.put_two(n);
    }

    // A field, and the byte behind it.
    pub fn put_field(&mut self, text: &[u8], end: u8)
        requires { RoomFor self.old (ended text.now end) }
        ensures { Penned self.old (ended text.now end) self.new }
    {
        self.put(text);
        self.put_byte(end);
    }

    pub fn put_number(&mut self, n: u64, end: u8)
        requires { RoomFor self.old (ended (decimal n) end) }
        ensures { Penned self.old (ended (decimal n) end) self.new }
    {
        self.put_digits(n);
        self.put_byte(end);
    }
}

// The whole text, to the start of the buffer where it has room there; and how many bytes it has.
pub fn hand_out(text: &[u8], out: &mut [u8]) -> Option<usize>
    ensures { HandsOut text.now result out.old out.new }
{
    if out.len() < text.len() {
        return None;
    }
    Some(written::put(text, out, 0))
}
