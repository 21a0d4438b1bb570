// Lines of text in lent octets, with their numbers. What has no room is dropped; where the text ends is counted all the same.
ghost use Rattle.std.specs.Prelude.{◌≡◌, ◌+◌, ◌*◌, ◌^◌, ◌<◌, [], ◌∷◌, length};
ghost use Rattle.listing_lines.specs.Listing.{wrote, decimal, field, fields};

// Lent octets, and where the next one of a text goes. How far a method moves that depends on what it writes, so each asks for as much as
// keeps it a `usize`: no fact of the struct alone could.
#[derive(Drop)]
pub(crate) struct Text<'a> {
    pub(crate) out: &'a mut [u8],
    pub(crate) at: usize,
}

impl Text<'_> {
    fn put_octet(&mut self, v: u8)
        requires { self.old.at + 1 < 2 ^ 64 }
        ensures same { self.new.out.ghost_name ≡ self.old.out.ghost_name }
        ensures text { (self.new.out.now, self.new.at) ≡ wrote self.old.out.now self.old.at (v ∷ []) }
    {
        octets::put_octet(self.out, self.at, v);
        self.at += 1;
    }

    // A number's digits.
    fn put_decimal(&mut self, v: usize)
        requires { self.old.at + 20 < 2 ^ 64 }
        ensures same { self.new.out.ghost_name ≡ self.old.out.ghost_name }
        ensures text { (self.new.out.now, self.new.at) ≡ wrote self.old.out.now self.old.at (decimal 20 v) }
    {
        if v < 10 {
            self.put_octet(b'0' + v as u8);
            return;
        }
        self.put_decimal(v / 10);
        self.put_octet(b'0' + (v % 10) as u8);
    }

    // A tab and a number.
    fn put_field(&mut self, v: usize)
        requires { self.old.at + 21 < 2 ^ 64 }
        ensures same { self.new.out.ghost_name ≡ self.old.out.ghost_name }
        ensures text { (self.new.out.now, self.new.at) ≡ wrote self.old.out.now self.old.at (field v) }
    {
        self.put_octet(b'\t');
        self.put_decimal(v);
    }

    // A line: a letter, the numbers, a newline.
    pub(crate) fn put_line(&mut self, letter: u8, values: &[usize])
        requires { self.old.at + (2 + 21 * length values.now) < 2 ^ 64 }
        ensures same { self.new.out.ghost_name ≡ self.old.out.ghost_name }
        ensures text { (self.new.out.now, self.new.at)
            ≡ wrote self.old.out.now self.old.at (fields letter values.now) }
    {
        self.put_octet(letter);
        for v in values {
            self.put_field(*v);
        }
        self.put_octet(b'\n');
    }
}
